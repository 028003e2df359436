//! Comparisons of a property's text with a value.
ghost use Rattle.std.specs.Prelude.{◌≡◌};
ghost use Rattle.org_match.specs.Built.{built_value_of};
ghost use Rattle.org_match.specs.Compare.{allows, by_pattern, by_quoted, by_times, compares};
ghost use Rattle.org_match.specs.Refusal.{value_pattern};
ghost use Rattle.org_expression.specs.Tree.{op_of};

use crate::built::BuiltValue;
use crate::pattern::Searcher;
use org_cal::Moment;
use org_expression::{Op, front_minute, is_time, named_minute, number, number_at};
use std::cmp::Ordering;

// Whether a text meets an operator and a value at a moment. The searcher is that of the value's pattern.
pub(crate) fn compares(
    moment: Moment,
    op: Op,
    text: &[u8],
    value: &BuiltValue,
    searcher: &mut Option<Searcher<'_>>,
) -> bool
    requires searcher { searcher.old ≡ value_pattern (built_value_of value.now) }
    ensures value { result ≡ compares moment (op_of op) text.now (built_value_of value.now) }
    ensures unchanged { searcher.new ≡ searcher.old }
{
    match value {
        BuiltValue::Number(is_negative, whole, fraction) => {
            let number = number(
                *is_negative,
                whole.as_str().as_bytes(),
                fraction.as_str().as_bytes(),
            );
            allows(op, number_at(text).cmp(&number))
        }
        BuiltValue::Quoted(quoted) => by_quoted(moment, op, text, quoted.as_str().as_bytes()),
        BuiltValue::Pattern(_) => match searcher {
            Some(searcher) => by_pattern(op, searcher.is_found(text)),
            // A pattern has a searcher, so this is never reached.
            None => false,
        },
    }
}

// `=` wants the pattern to be found, `<>` wants it not to be.
fn by_pattern(op: Op, is_found: bool) -> bool
    ensures value { result ≡ by_pattern (op_of op) is_found }
{
    match op {
        Op::Differs => !is_found,
        _ => is_found,
    }
}

// Whether the operator allows this order of two values.
fn allows(op: Op, order: Ordering) -> bool
    ensures value { result ≡ allows (op_of op) order }
{
    match op {
        Op::Less => order.is_lt(),
        Op::Equal => order.is_eq(),
        Op::Greater => order.is_gt(),
        Op::AtMost => !order.is_gt(),
        Op::AtLeast => !order.is_lt(),
        Op::Differs => !order.is_eq(),
    }
}

// Whether a text meets an operator and a quoted text, which may stand for a time.
fn by_quoted(moment: Moment, op: Op, text: &[u8], quoted: &[u8]) -> bool
    ensures value { result ≡ by_quoted moment (op_of op) text.now quoted.now }
{
    if !is_time(quoted) {
        return allows(op, text.cmp(quoted));
    }
    by_times(op, front_minute(text), named_minute(moment, quoted))
}

// Whether two minutes meet an operator: never where one of them is missing.
fn by_times(op: Op, left: Option<u64>, right: Option<u64>) -> bool
    ensures value { result ≡ by_times (op_of op) left right }
{
    match (left, right) {
        (Some(left), Some(right)) => allows(op, left.cmp(&right)),
        _ => false,
    }
}
