//! The methods of values.

/// A method of a list, a dict, a string or a depset.
#[derive(Clone, Copy, PartialEq, Eq, Debug)]
pub enum Method {
    Append,
    Extend,
    Get,
    Keys,
    Values,
    Items,
    Join,
    Split,
    StartsWith,
    EndsWith,
    ToList,
}
