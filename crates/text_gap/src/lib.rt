// White space and comments between the tokens of a text map (W-206). The definitions are in specs/.
#![tactic(auto)]

ghost use Rattle.std.specs.Prelude.{◌≡◌, ◌+◌, ◌-◌, ◌≤◌, ◌<◌, length};
ghost use Rattle.text_gap.specs.declared.Mode.TheVariants.{Between, Line, Opening, Comment};
ghost use Rattle.text_gap.specs.Gaps.{is_open, gap_from};
ghost use Rattle.text_byte.specs.Spans.{span_end};
ghost use Rattle.text_gap.specs.Passing.{blank_at, other_at, other_end, starts_token, Ends};

use memchr::memchr;
use text_byte as bytes;

// How the reading of a gap goes on: between tokens, in a comment up to the line's end, at the star that opens a
// comment, in that comment, behind a star in it, and at a token's first byte.
#[derive(Clone, Copy, PartialEq, Eq)]
pub enum Mode {
    Between,
    Line,
    Opening,
    Comment,
    Star,
    Stop,
}

#[derive(Clone, Copy)]
pub struct Gap {
    pub mode: Mode,
    pub at: usize,
}

// Past white space and comments. Most gaps are white space alone: so a token's first byte behind it is asked for before anything else.
pub fn gap_at(text: &[u8], from: usize) -> Gap
    ensures { result ≡ gap_from text.now Between from (length text.now - from) }
{
    let at = blank_end(text, from);
    if starts_token(text, at) {
        return Gap {
            mode: Mode::Stop,
            at,
        };
    }
    read_gap(text, at)
}

// A byte that is neither white space nor a slash is a token's first, whatever follows.
fn starts_token(text: &[u8], at: usize) -> bool
    ensures { result ≡ starts_token text.now at }
{
    if at < text.len() {
        let b = text[at];
        return !bytes::is_blank(b) & (b != bytes::SLASH);
    }
    false
}

// Past white space and comments, one comment after the other. Each comment says where the loop goes on.
fn read_gap(text: &[u8], from: usize) -> Gap
    ensures { result ≡ gap_from text.now Between from (length text.now - from) }
{
    let mut at = from;
    while at < text.len() {
        let g = comment_at(text, at);
        if g.mode != Mode::Between {
            return g;
        }
        at = blank_end(text, g.at);
    }
    Gap {
        mode: Mode::Between,
        at,
    }
}

// Behind a comment or a byte of white space; or a token's first byte.
fn comment_at(text: &[u8], at: usize) -> Gap
    requires { at < length text.now }
    ensures { Ends text.now Between at result }
{
    let b = text[at];
    let c = bytes::byte_at(text, at + 1);
    if bytes::is_blank(b) {
        return Gap {
            mode: Mode::Between,
            at: at + 1,
        };
    }
    if bytes::opens_line(b, c) {
        return line_end(text, at + 1);
    }
    if bytes::opens_comment(b, c) {
        return comment_end(text, at + 1);
    }
    Gap {
        mode: Mode::Stop,
        at,
    }
}

// Behind the newline that ends a comment.
fn line_end(text: &[u8], from: usize) -> Gap
    requires { from ≤ length text.now }
    ensures { Ends text.now Line from result }
{
    let at = byte_end(text, from, bytes::NEWLINE);
    if at < text.len() {
        return Gap {
            mode: Mode::Between,
            at: at + 1,
        };
    }
    Gap {
        mode: Mode::Line,
        at,
    }
}

// Behind the star and slash that close a comment, from the star that opens it on, which is none of them.
fn comment_end(text: &[u8], from: usize) -> Gap
    requires { from ≤ length text.now }
    ensures { Ends text.now Opening from result }
{
    if text.len() <= from {
        return Gap {
            mode: Mode::Opening,
            at: from,
        };
    }
    close_end(text, from + 1)
}

// The search says where the loop goes on: behind the star that it found.
fn close_end(text: &[u8], from: usize) -> Gap
    requires { from ≤ length text.now }
    ensures { Ends text.now Comment from result }
{
    let mut at = from;
    while at < text.len() {
        let star = byte_end(text, at, bytes::STAR);
        if text.len() <= star {
            return Gap {
                mode: Mode::Comment,
                at: star,
            };
        }
        if text.len() - star == 1 {
            return Gap {
                mode: Mode::Star,
                at: text.len(),
            };
        }
        if text[star + 1] == bytes::SLASH {
            return Gap {
                mode: Mode::Between,
                at: star + 2,
            };
        }
        at = star + 1;
    }
    Gap {
        mode: Mode::Comment,
        at,
    }
}

pub fn blank_end(text: &[u8], from: usize) -> usize
    ensures { result ≡ span_end (blank_at text.now) from (length text.now - from) }
{
    bytes::span_end(from, text.len(), |i| bytes::is_blank(text[i]))
}

// The first byte of a value. In most comments it is near: a search of the whole rest begins with 64 bytes at once.
fn byte_end(text: &[u8], from: usize, b: u8) -> usize
    ensures { result ≡ other_end text.now b from }
{
    if text.len() < from {
        return from;
    }
    if bytes::NEAR <= text.len() - from {
        let at = bytes::near_end(text, from, b);
        if at < from + bytes::NEAR {
            return at;
        }
    }
    far_end(text, from, b)
}

// Apart from the look at the next bytes, which is inlined.
#[inline(never)]
fn far_end(text: &[u8], from: usize, b: u8) -> usize
    requires { from ≤ length text.now }
    ensures { result ≡ other_end text.now b from }
{
    match memchr(b, &text[from..]) {
        Some(i) => from + i,
        None => text.len(),
    }
}

// Inside a comment that wants its closing star and slash.
pub fn is_open(mode: Mode) -> bool
    ensures { result ≡ is_open mode }
{
    matches!(mode, Mode::Opening | Mode::Comment | Mode::Star)
}
