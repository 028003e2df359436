//! What a repeater or a delay counts in.

/// What a repeater or a delay counts in (Org manual 9.6, "Repeated tasks").
#[derive(Clone, Copy, Debug, PartialEq, Eq)]
pub enum Unit {
    Hour,
    Day,
    Week,
    Month,
    Year,
}
