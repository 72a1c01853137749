// Everything that C can call, as one library: `rt lib` in its folder. A module for each group of functions, and one for what they answer.
// It holds no rule of frames, messages or payloads: it takes numbers to a header, calls the library that knows, and tells the answer in numbers.
// An archive has the exported functions of its own crate alone, so all of them stand here. The header file include/tilambok.h says the same to a C caller.
// Statuses and forms are numbers, and what travels together comes one by one, each in its own lent number or buffer: that is the C interface.
#![tactic(auto)]

mod frames;
mod links;
mod payloads;
mod sending;
mod status;
