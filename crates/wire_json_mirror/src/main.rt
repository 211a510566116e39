//! Messages and their JSON. Each line of standard input has what is asked, the name of a type, and
//! what it is asked of: `write`, of bytes in hexadecimal digits, and it is answered by a line, the
//! compact JSON of the message that they are; or `read`, of JSON, and it is answered by the digits of
//! the shortest encoding of the message that this is. Else it is answered why there is none.
#![tactic(auto)]

mod mirror;

use std::io;
use std::io::Read;

fn main(rt: HostRuntime) -> io::Result<()> {
    let mut text = String::new(rt.alloc());
    rt.stdin().read_to_string(&mut text)?;
    for line in text.split('\n') {
        if !line.is_empty() {
            mirror::run(&rt, line)?;
        }
    }
    Ok(())
}
