//! Variables of the environment.

use crate::problem::Problem;
use std::alloc::AllocError;
use std::env;
use std::env::VarError;
use std::rt::Env;

/// A variable that is looked at.
#[derive(Clone, Copy, Debug)]
pub enum Variable {
    Background,
    Colors,
    Columns,
    Config,
    Files,
    Home,
    Lines,
    State,
    Terminal,
    Zone,
    Zones,
}

impl Variable {
    fn name(self) -> &'static str {
        match self {
            Variable::Background => "COLORFGBG",
            Variable::Colors => "NO_COLOR",
            Variable::Columns => "COLUMNS",
            Variable::Config => "XDG_CONFIG_HOME",
            Variable::Files => "ORGQ_FILES",
            Variable::Home => "HOME",
            Variable::Lines => "LINES",
            Variable::State => "XDG_STATE_HOME",
            Variable::Terminal => "TERM",
            Variable::Zone => "TZ",
            Variable::Zones => "TZDIR",
        }
    }

    /// What is said where it isn't UTF-8.
    pub fn why(self) -> &'static str {
        match self {
            Variable::Background => "COLORFGBG isn't UTF-8",
            Variable::Colors => "NO_COLOR isn't UTF-8",
            Variable::Columns => "COLUMNS isn't UTF-8",
            Variable::Config => "XDG_CONFIG_HOME isn't UTF-8",
            Variable::Files => "ORGQ_FILES isn't UTF-8",
            Variable::Home => "HOME isn't UTF-8",
            Variable::Lines => "LINES isn't UTF-8",
            Variable::State => "XDG_STATE_HOME isn't UTF-8",
            Variable::Terminal => "TERM isn't UTF-8",
            Variable::Zone => "TZ isn't UTF-8",
            Variable::Zones => "TZDIR isn't UTF-8",
        }
    }
}

/// What a variable says; none where it isn't set.
pub fn value_of<R: AllocGlobal + Env>(
    rt: &R,
    variable: Variable,
) -> Result<Option<String>, Problem> {
    match env::var(rt, variable.name()) {
        Ok(value) => Ok(Some(value)),
        Err(VarError::NotPresent) => Ok(None),
        Err(VarError::NotUnicode) => Err(Problem::Environment(variable)),
        Err(VarError::OutOfMemory) => Err(Problem::from(AllocError)),
    }
}
