// Signals: cable words by runs of two, and a list after them.
ghost use Rattle.std.specs.Prelude.{◌≤◌, length};

use probe_answers::numbers::{arg, word};

// Lays the run of two words at a place of a request, which how many times precedes, from a place on.
fn lay_twos(args: &[u32], at: usize, words: &mut [u16], from: usize) {
    let times = arg(args, at) as usize % 65536;
    let one = word(arg(args, at % 65536 + 1));
    let two = word(arg(args, at % 65536 + 2));
    let mut place = from;
    for _ in 0..times {
        parts::lay(words, place, &[one, two]);
        place = place % 65536 + 2;
    }
}

// Lays the list at a place of a request, which its count precedes, from a place on.
fn lay_list(args: &[u32], at: usize, words: &mut [u16], from: usize) {
    let count = arg(args, at) as usize % 65536;
    for k in 0..count {
        let w = word(arg(args, at % 65536 + k + 1));
        parts::lay(words, from % 65536 + k, &[w]);
    }
}

// Copies the words of a signal, which stands at a place of a request, as they are written there, and answers where the request goes on.
fn take_written<'a>(args: &[u32], at: usize, words: &'a mut [u16]) -> (&'a mut [u16], usize)
    ensures { length result.0.now ≤ length words.old }
{
    let runs = arg(args, at % 65536 + 1) as usize % 65536;
    let mut next = at % 65536 + 2;
    let mut count = 0usize;
    for _ in 0..runs {
        lay_twos(args, next, words, count);
        count = count % 65536 + arg(args, next) as usize % 65536 * 2;
        next = next % 65536 + 3;
    }
    lay_list(args, next, words, count);
    let listed = arg(args, next) as usize % 65536;
    let end = words.len().min(count % 65536 + listed);
    (&mut words[..end], next % 65536 + 1 + listed)
}

// Copies the words of a signal, which stands at a place of a request; they are scrambled, where that is asked, from this history.
pub fn take_signal<'a>(
    args: &[u32],
    at: usize,
    history: u16,
    words: &'a mut [u16],
) -> (&'a mut [u16], usize)
    ensures { length result.0.now ≤ length words.old }
{
    let (words, next) = take_written(args, at, words);
    if arg(args, at) != 0 {
        let mut written = [0u16; 40000];
        parts::lay(&mut written, 0, words);
        // Words that are refused stay as they are written.
        let _ = sdi::scramble(history, parts::part(&written, 0, words.len()), words);
    }
    (words, next)
}
