// The figures of documents 01 and 02, each under one name, for code and for definitions (specs/); a refusal is the error of every call that they refuse.
// It knows what a number is called, and no rule about it. Services, frame types and infos are numbers and no enums: a header carries any byte, and the
// reader and the writers promise refusals 2 to 4 for those that are none (`fault_of`, frame/specs/Rules).
#![tactic(auto)]

pub mod command;
pub mod frame_type;
pub mod refusal;
pub mod service;
