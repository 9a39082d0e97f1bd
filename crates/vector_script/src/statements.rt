// A script cut into its statements.
ghost use Rattle.std.specs.Prelude.{◌≡◌, ◌<◌, ◌≤◌, ◌-◌, MatchOption, length, take, drop};
ghost use Rattle.std.specs.Iterator.{at_most};

// A question as the script puts it.
#[derive(Clone, Copy, Debug, PartialEq, Eq)]
pub struct Statement<'a> {
    pub question: &'a [u8],
    // The question and its label in quotes, as they are printed: nothing where the text ends before the label does.
    pub heading: &'a [u8],
    // What the statement lends.
    pub lines: &'a [u8],
}

// The statements that are not read yet. Each begins with a word at a line's beginning; indented lines go on with it.
#[derive(Clone, Copy, Debug)]
pub struct Script<'a> {
    rest: &'a [u8],
}

impl<'a> Script<'a> {
    // The lines before the first statement, and then the statements.
    pub fn split(text: &'a [u8]) -> (&'a [u8], Script<'a>)
        ensures head { result.0.now ≡ take (length result.0.now) text.now }
        ensures rest { result.1.rest.now ≡ drop (length result.0.now) text.now }
    {
        let (head, rest) = text.split_at(statement_start(text, true));
        (head, Script { rest })
    }
}

impl<'a> Iterator for Script<'a> {
    type Item = Statement<'a>;

    ghost remaining = { λ s. at_most (length s.rest.now) };

    ghost next_gives = { λ s r t. MatchOption r (length s.rest.now ≡ 0) (λ _. 0 < length s.rest.now) };

    fn next(&mut self) -> Option<Statement<'a>> {
        if self.rest.is_empty() {
            return None;
        }
        let question = up_to(self.rest, b' ');
        let (heading, after) = split_heading(self.rest);
        let (lines, rest) = after.split_at(statement_start(after, heading.ends_with(b"\n")));
        self.rest = rest;
        Some(Statement {
            question,
            heading,
            lines,
        })
    }
}

// The tokens that are not read yet. A space or a line's end stands behind each, and more of these make empty tokens.
#[derive(Clone, Copy, Debug)]
pub(crate) struct Tokens<'a> {
    rest: &'a [u8],
}

impl<'a> Tokens<'a> {
    pub(crate) fn of(lines: &'a [u8]) -> Tokens<'a> {
        Tokens { rest: lines }
    }
}

impl<'a> Iterator for Tokens<'a> {
    type Item = &'a [u8];

    ghost remaining = { λ s. at_most (length s.rest.now) };

    ghost next_gives = { λ s r t. MatchOption r (length s.rest.now ≡ 0) (λ _. 0 < length s.rest.now) };

    // A # begins a comment, which is one token up to the line's end.
    fn next(&mut self) -> Option<&'a [u8]> {
        if self.rest.is_empty() {
            return None;
        }
        let mark = if self.rest.starts_with(b"#") {
            b'\n'
        } else {
            b' '
        };
        let token = up_to(self.rest, mark);
        self.rest = self.rest.get(token.len() + 1..).unwrap_or_default();
        Some(token)
    }
}

// The bytes before the next mark, or before the line's end.
pub(crate) fn up_to(text: &[u8], mark: u8) -> &[u8]
    ensures { length result.now ≤ length text.now }
{
    let end = text.iter().position(|b| *b == mark || *b == b'\n');
    &text[..end.unwrap_or(text.len())]
}

// A question with its label, and the text behind the label's last quote: both empty where the label does not end.
fn split_heading(text: &[u8]) -> (&[u8], &[u8])
    ensures { length result.1.now ≤ length text.now - 1 }
{
    match text.split_at_checked(heading_end(text)) {
        Some(parts) => parts,
        None => (&[], &[]),
    }
}

// Where the label ends, or past the text.
fn heading_end(text: &[u8]) -> usize
    ensures { 0 < result }
{
    let question = up_to(text, b'"').len() + 1;
    let label = text.get(question..).unwrap_or_default();
    question + up_to(label, b'"').len() + 1
}

// Where the next line stands that begins with a word. The text may begin with the rest of a line.
fn statement_start(text: &[u8], begins_line: bool) -> usize
    ensures { result ≤ length text.now }
{
    let mut begins_line = begins_line;
    for (at, b) in text.iter().enumerate() {
        if begins_line && b'A' <= *b {
            return at;
        }
        begins_line = *b == b'\n';
    }
    text.len()
}
