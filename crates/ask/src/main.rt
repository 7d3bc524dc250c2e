// Reads three packets, the document, the view and the query, from standard input and prints what `asking::reply` says of them (docs/RULES.md, "The program
// ask").

#![tactic(auto)]

use arrayvec::ArrayVec;
use std::io;
use std::io::Read;

// Valid input has at most 8,715 bytes; one byte more shows that there are more. A read that fails ends the input, and a write that fails is passed over.
fn main(rt: HostRuntime) {
    let mut input = ArrayVec::<u8, 8716>::new();
    let mut text = [0; 32768];
    let _ = io::copy(&mut rt.stdin().take(8716), &mut input);
    if let Ok(n) = asking::reply(&input, &mut text) {
        let _ = rt.write_all(&text[..n]);
    }
}
