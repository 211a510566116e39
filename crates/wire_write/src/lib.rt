//! Records written into room of the caller's, with no request for memory. `CALLING.md` shows the
//! calls.
#![tactic(auto)]

mod item;
mod put;
mod shortest;

pub use put::{
    PutError, put_bytes, put_fixed32, put_fixed64, put_group_end, put_group_start, put_sint,
    put_varint,
};
pub use shortest::{ShortestError, shortest_len, write_shortest};
