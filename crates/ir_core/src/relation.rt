/// How two numbers are compared: `==`, `!=`, `<`, `<=`, `>`, `>=`.
///
/// The names are this project's own.
#[derive(Clone, Copy)]
pub enum Rel {
    Eq,
    Ne,
    Lt,
    Le,
    Gt,
    Ge,
}
