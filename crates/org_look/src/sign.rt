//! The signs of pictures.
ghost use Rattle.std.specs.Prelude.{◌≡◌};
ghost use Rattle.org_look.specs.Signs.{sign_text};

/// Which signs a picture is drawn with.
#[derive(Clone, Copy, Debug, PartialEq, Eq)]
pub enum Signs {
    /// Those for boxes, each one column wide.
    Drawn,
    /// Those that any terminal has.
    Ascii,
}

/// A sign.
#[derive(Clone, Copy, Debug, PartialEq, Eq)]
pub enum Sign {
    /// A space.
    Blank,
    /// A border between two days, and the level one between two weeks.
    Side,
    Level,
    /// The corners of the grid, and where its borders meet.
    TopLeft,
    Top,
    TopRight,
    Left,
    Cross,
    Right,
    BottomLeft,
    Bottom,
    BottomRight,
    /// A bar: where it begins, its stretch, and where it ends.
    Begin,
    Bar,
    End,
    /// Where a bar comes from the week before, and where it goes on in the next.
    From,
    On,
    /// Where a text is cut.
    Cut,
}

impl Sign {
    /// The sign as a text, one column wide.
    pub fn text(self, signs: Signs) -> &'static str
        ensures value { result.now ≡ sign_text signs self }
    {
        match signs {
            Signs::Drawn => self.drawn(),
            Signs::Ascii => self.ascii(),
        }
    }

    fn drawn(self) -> &'static str
        ensures { result.now ≡ sign_text Signs.Drawn self }
    {
        match self {
            Sign::Blank => " ",
            Sign::Side => "│",
            Sign::Level => "─",
            Sign::TopLeft => "┌",
            Sign::Top => "┬",
            Sign::TopRight => "┐",
            Sign::Left => "├",
            Sign::Cross => "┼",
            Sign::Right => "┤",
            Sign::BottomLeft => "└",
            Sign::Bottom => "┴",
            Sign::BottomRight => "┘",
            Sign::Begin => "╺",
            Sign::Bar => "━",
            Sign::End => "╸",
            Sign::From => "◂",
            Sign::On => "▸",
            Sign::Cut => "…",
        }
    }

    fn ascii(self) -> &'static str
        ensures { result.now ≡ sign_text Signs.Ascii self }
    {
        match self {
            Sign::Blank => " ",
            Sign::Side => "|",
            Sign::Level => "-",
            Sign::Begin => "[",
            Sign::Bar => "=",
            Sign::End => "]",
            Sign::From => "<",
            Sign::On => ">",
            Sign::Cut => "~",
            _ => "+",
        }
    }
}
