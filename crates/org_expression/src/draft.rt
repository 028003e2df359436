//! What is read of an expression so far, and what each character adds to it.
ghost use Rattle.std.specs.Prelude.{◌≡◌, IfOk, OnOk, Some};
ghost use Rattle.org_base.specs.Results.{Gives};
ghost use Rattle.org_expression.specs.Tree.{term_of as tree_term, link_of, op_of, sign_of};
ghost use Rattle.org_expression.specs.Draft.{absorb, begin, begin_value, empty_draft, finished, follow, in_name, term_of, with_term};

use crate::shape::Shape;
use crate::state::State;
use crate::step::is_final;
use crate::term_text::TermText;
use crate::tree::{Expression, Item, Kind, Link, Op, Sign, Term, Value};
use org_base::is_tag_char;
use std::alloc::{AllocError, Global};
use std::marker::Model;

// The parts that are read, and the term that is being read with what stands before it. Where a value is read, the name
// and the operator before it are kept; the shape says which of the texts count.
#[derive(Drop)]
pub(crate) struct Draft {
    kind: Kind,
    tags: Vec<Item>,
    todo: Vec<Item>,
    link: Link,
    sign: Sign,
    name: TermText,
    op: Op,
    shape: Shape,
    is_negative: bool,
    whole: TermText,
    fraction: TermText,
    text: TermText,
    alloc: Global,
}

impl Model for Draft {
    ghost use Rattle.std.specs.Prelude.{map};
    ghost use Rattle.org_expression.specs.Draft.{Draft as Drafted};
    ghost use Rattle.org_expression.specs.Tree.{item_of, link_of, sign_of, op_of};
    ghost use Rattle.org_expression.specs.Drafted.{kind_of, shape_of};

    ghost Value = { Drafted };

    ghost view = { λ d. record {
      kind = kind_of d.kind;
      tags = map item_of d.tags.items;
      todo = map item_of d.todo.items;
      link = link_of d.link;
      sign = sign_of d.sign;
      name = d.name;
      op = op_of d.op;
      shape = shape_of d.shape;
      is_negative = d.is_negative;
      whole = d.whole;
      fraction = d.fraction;
      text = d.text;
    } };
}

impl Draft {
    // Nothing is read.
    pub(crate) fn new(alloc: Global) -> Draft
        ensures value { result ≡ empty_draft }
    {
        Draft {
            kind: Kind::Tags,
            tags: Vec::new(alloc),
            todo: Vec::new(alloc),
            link: Link::Direct,
            sign: Sign::Unsigned,
            name: TermText::new(alloc),
            op: Op::Equal,
            shape: Shape::AsTag,
            is_negative: false,
            whole: TermText::new(alloc),
            fraction: TermText::new(alloc),
            text: TermText::new(alloc),
            alloc,
        }
    }

    // The term that was read last.
    fn term(&self) -> Result<Term, AllocError>
        ensures value { IfOk result (λ t. tree_term t ≡ term_of self.now) }
    {
        let term = match self.shape {
            Shape::AsTag => Term::Tag(self.name.copy(self.alloc)?),
            Shape::AsFound => Term::Found(self.text.copy(self.alloc)?),
            Shape::AsNumber => {
                let name = self.name.copy(self.alloc)?;
                let whole = self.whole.copy(self.alloc)?;
                let fraction = self.fraction.copy(self.alloc)?;
                Term::Compare(
                    name,
                    self.op,
                    Value::Number(self.is_negative, whole, fraction),
                )
            }
            Shape::AsQuoted => {
                let name = self.name.copy(self.alloc)?;
                let text = self.text.copy(self.alloc)?;
                Term::Compare(name, self.op, Value::Quoted(text))
            }
            Shape::AsPattern => {
                let name = self.name.copy(self.alloc)?;
                let text = self.text.copy(self.alloc)?;
                Term::Compare(name, self.op, Value::Pattern(text))
            }
        };
        Ok(term)
    }

    // Ends the term that was read last.
    fn close(&mut self, link: Link, sign: Sign) -> Result<(), AllocError>
        ensures value { OnOk result (self.new ≡ with_term self.old (link_of link) (sign_of sign)) }
    {
        let term = self.term()?;
        let item = Item {
            link: self.link,
            sign: self.sign,
            term,
        };
        match self.kind {
            Kind::Tags => self.tags.push(item)?,
            Kind::Todo => self.todo.push(item)?,
            Kind::Open => self.todo.push(item)?,
        }
        self.link = link;
        self.sign = sign;
        Ok(())
    }

    // Takes a character where a term may begin.
    fn begin(&mut self, c: char) -> Result<(), AllocError>
        ensures value { OnOk result (self.new ≡ begin c self.old) }
    {
        match c {
            '+' => self.sign = Sign::Plus,
            '-' => self.sign = Sign::Minus,
            '/' => self.kind = Kind::Todo,
            '!' => self.kind = Kind::Open,
            '\\' => {
                self.name.clear();
                self.shape = Shape::AsTag;
            }
            '{' => {
                self.text.clear();
                self.shape = Shape::AsFound;
            }
            _ => {
                self.name.clear();
                self.name.push(c)?;
                self.shape = Shape::AsTag;
            }
        }
        Ok(())
    }

    // Takes the character after a whole term.
    fn follow(&mut self, c: char) -> Result<(), AllocError>
        ensures value { OnOk result (self.new ≡ follow c self.old) }
    {
        match c {
            '+' => self.close(Link::Direct, Sign::Plus),
            '-' => self.close(Link::Direct, Sign::Minus),
            '&' => self.close(Link::And, Sign::Unsigned),
            '|' => self.close(Link::Or, Sign::Unsigned),
            _ => {
                self.close(Link::Direct, Sign::Unsigned)?;
                self.kind = Kind::Todo;
                Ok(())
            }
        }
    }

    // Takes the first character of a value.
    fn begin_value(&mut self, c: char) -> Result<(), AllocError>
        ensures value { OnOk result (self.new ≡ begin_value c self.old) }
    {
        match c {
            '-' => {
                self.shape = Shape::AsNumber;
                self.is_negative = true;
                self.whole.clear();
                self.fraction.clear();
            }
            '"' => {
                self.shape = Shape::AsQuoted;
                self.text.clear();
            }
            '{' => {
                self.shape = Shape::AsPattern;
                self.text.clear();
            }
            _ => {
                self.shape = Shape::AsNumber;
                self.is_negative = false;
                self.whole.clear();
                self.whole.push(c)?;
                self.fraction.clear();
            }
        }
        Ok(())
    }

    // Takes an operator, or its first character.
    fn compare(&mut self, op: Op) -> Result<(), AllocError>
        ensures value { OnOk result (self.new ≡ record self.old { op = op_of op }) }
    {
        self.op = op;
        Ok(())
    }

    // Takes a character after the first of a name.
    fn in_name(&mut self, c: char) -> Result<(), AllocError>
        ensures value { OnOk result (self.new ≡ in_name c self.old) }
    {
        match c {
            '\\' => Ok(()),
            '<' => self.compare(Op::Less),
            '=' => self.compare(Op::Equal),
            '>' => self.compare(Op::Greater),
            _ if is_tag_char(c) => self.name.push(c),
            _ => self.follow(c),
        }
    }

    // Takes a character, in the state that the ones before it lead to.
    pub(crate) fn absorb(&mut self, state: State, c: char) -> Result<(), AllocError>
        ensures value { OnOk result (self.new ≡ absorb state c self.old) }
    {
        match state {
            State::Start
            | State::Linked(_)
            | State::Signed(_)
            | State::AfterSlash
            | State::AfterBang => self.begin(c),
            State::InName(_) => self.in_name(c),
            State::Escaped(_) => self.name.push('-'),
            State::InPattern if c == '}' => Ok(()),
            State::InText if c == '"' => Ok(()),
            State::InPattern | State::InText => self.text.push(c),
            State::Closed => self.follow(c),
            State::AfterLess if c == '=' => self.compare(Op::AtMost),
            State::AfterLess if c == '>' => self.compare(Op::Differs),
            State::AfterGreater if c == '=' => self.compare(Op::AtLeast),
            State::AfterLess | State::AfterGreater | State::AfterCompare | State::AfterEqual => {
                self.begin_value(c)
            }
            State::AfterMinus => self.whole.push(c),
            State::InWhole(_) if c.is_ascii_digit() => self.whole.push(c),
            State::InWhole(_) if c == '.' => Ok(()),
            State::InWhole(_) => self.follow(c),
            State::AfterPoint => self.fraction.push(c),
            State::InFraction(_) if c.is_ascii_digit() => self.fraction.push(c),
            State::InFraction(_) => self.follow(c),
        }
    }

    // The expression, where it may end in this state.
    pub(crate) fn finish(mut self, state: State) -> Result<Option<Expression>, AllocError>
        ensures value { Gives result (finished (Some state) self) }
    {
        if !is_final(state) {
            return Ok(None);
        }
        if state != State::AfterBang {
            self.close(Link::Direct, Sign::Unsigned)?;
        }
        let Draft {
            kind,
            tags,
            todo,
            ..
        } = self;
        Ok(Some(Expression { kind, tags, todo }))
    }
}
