// Lines of the list, read from standard input.
ghost use Rattle.std.specs.Prelude.{◌≤◌, length, IfOk, IfSome};

use crate::Stop;
use std::io;
use std::io::{Read, Stdin};

// Reads until the bytes are full or the input ends, and answers how many came.
fn read_full(mut input: Stdin, bytes: &mut [u8]) -> io::Result<usize>
    ensures { IfOk result (λ n. n ≤ length bytes.new) }
{
    let mut done = 0;
    // A read brings as many bytes as it likes, so the loop goes on by those that came.
    while done < bytes.len() {
        let n = input.read(&mut bytes[done..])?;
        if n == 0 {
            break;
        }
        done += n;
    }
    Ok(done)
}

// Reads the n words of a line and its end.
fn read_body(input: Stdin, text: &mut [u8], words: &mut [u32], n: usize) -> Result<(), Stop>
    requires { n ≤ length words.old }
{
    if n > text.len() / 9 {
        return Err(Stop::Differs);
    }
    let end = 9 * n;
    if end == text.len() {
        return Err(Stop::Differs);
    }
    let whole = read_full(input, &mut text[..end + 1])? == end + 1;
    if whole && text[end] == b'\n' && replay_text::read_words(text, n, words) {
        Ok(())
    } else {
        Err(Stop::Differs)
    }
}

// Reads the next line, if there is one: its letter, and how many words it has, which stand at the beginning of `words`.
pub fn read_line(
    input: Stdin,
    text: &mut [u8],
    words: &mut [u32],
) -> Result<Option<(u8, usize)>, Stop>
    ensures { IfOk result (λ line. IfSome line (λ l. l.1 ≤ length words.new)) }
{
    let mut head = [0u8; 10];
    let got = read_full(input, &mut head)?;
    if got == 0 {
        return Ok(None);
    }
    if got < 10 || !replay_text::is_word(&head, 1) {
        return Err(Stop::Differs);
    }
    let n = replay_text::word_at(&head, 2) as usize;
    if n > words.len() {
        return Err(Stop::Differs);
    }
    read_body(input, text, words, n)?;
    Ok(Some((head[0], n)))
}
