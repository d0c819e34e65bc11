// k: the longest list that runs, and one token more.
ghost use Rattle.std.specs.Prelude.{◌<◌, ◌^◌};

use crate::build::PLAIN;
use crate::show;
use records::tokens::Token;
use std::io;

const MOST: usize = 65536 * Token::SIZE;

const TOO_MANY: usize = 65537 * Token::SIZE;

// Stores a token of this kind. Its positions are 0.
fn put(tokens: &mut [u8], at: usize, kind: u32) {
    places::put_place(tokens, at, &[kind, 0, 0, 0, 0, 0, 0, 0]);
}

// StreamStart, DocumentEnd again and again, StreamEnd: each token is looked at, and the events are
// two.
fn make(tokens: &mut [u8]) {
    let n = tokens.len() / Token::SIZE;
    for i in 0..n {
        put(tokens, i, 7);
    }
    put(tokens, 0, 1);
    if n > 0 {
        put(tokens, n - 1, 2);
    }
}

// A list of as many tokens as lie in `N` bytes.
fn list<const N: usize>(rt: &impl Print, title: &str) -> io::Result<()>
    requires { N < 2 ^ 63 }
{
    let mut tokens = [0u8; N];
    make(&mut tokens);
    let mut events = [0u8; 2304];
    show::run(rt, title, &tokens, b"", PLAIN, &mut events)
}

pub fn most(rt: &impl Print) -> io::Result<()> {
    list::<MOST>(rt, "k: 65,536 tokens")
}

pub fn too_many(rt: &impl Print) -> io::Result<()> {
    list::<TOO_MANY>(rt, "k: 65,537 tokens")
}
