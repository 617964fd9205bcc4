/// Why the evaluation of a function ends a scan.
#[derive(Clone, Copy, Debug, PartialEq, Eq)]
pub enum Fault {
    DivByZero,
    Range,
}
