use crate::status::Refused;

/// What is to be written, before anything is.
#[derive(Drop)]
pub enum Reply {
    Output(Vec<u8>),
    Refusal(Refused, Vec<u8>),
}
