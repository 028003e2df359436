//! The lines by which a shell hands the width of its terminal on.

use crate::session::without_front;
use clap::ArgMatches;
use orgq_messages::{Problem, print_all};

/// Prints what stands at the start of a shell for this program, and gives the exit status.
pub fn print_shell(
    rt: &HostRuntime,
    matches: &ArgMatches<'_>,
    own: &ArgMatches<'_>,
) -> Result<u8, Problem> {
    without_front(rt.alloc(), matches)?;
    match own.get_str("SHELL") {
        Some("bash") => Ok(print_all(rt, BASH.as_bytes(), 0)),
        Some("fish") => Ok(print_all(rt, FISH.as_bytes(), 0)),
        Some("zsh") => Ok(print_all(rt, ZSH.as_bytes(), 0)),
        _ => Err(Problem::Shell),
    }
}

// Shells keep the width and the height of a terminal to themselves: a function of the program's name hands them to it alone.
// Completions are read from where an installation puts them; fish finds them by itself.

const BASH: &str = "# orgq in bash: eval \"$(orgq shell bash)\" in ~/.bashrc
orgq() { COLUMNS=${COLUMNS-} LINES=${LINES-} command orgq \"$@\"; }
for orgq_share in \"${XDG_DATA_HOME:-$HOME/.local/share}\" /usr/local/share /usr/share; do
    if [ -r \"$orgq_share/bash-completion/completions/orgq\" ]; then
        . \"$orgq_share/bash-completion/completions/orgq\"
        break
    fi
done
unset orgq_share
";

const FISH: &str = "# orgq in fish: orgq shell fish | source, in ~/.config/fish/config.fish
function orgq
    COLUMNS=$COLUMNS LINES=$LINES command orgq $argv
end
";

const ZSH: &str = "# orgq in zsh: eval \"$(orgq shell zsh)\" in ~/.zshrc, behind compinit
orgq() { COLUMNS=${COLUMNS-} LINES=${LINES-} command orgq \"$@\" }
for orgq_share in \"${XDG_DATA_HOME:-$HOME/.local/share}\" /usr/local/share /usr/share; do
    if [ -r \"$orgq_share/zsh/site-functions/_orgq\" ]; then
        fpath=(\"$orgq_share/zsh/site-functions\" $fpath)
        (( $+functions[compdef] )) && autoload -Uz _orgq && compdef _orgq orgq
        break
    fi
done
unset orgq_share
";
