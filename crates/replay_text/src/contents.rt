// Lines on the lent slices and the answer.
ghost use Rattle.std.specs.Prelude.{◌≡◌};
ghost use Rattle.replay_text.specs.Contents.{put_by, as_said};
ghost use Rattle.replay_text.specs.Letters.{letter_of, Decodes};

// What a line says: what the answer or a slice holds, or what a slice begins with.
#[derive(Clone, Copy, Debug, PartialEq, Eq)]
pub enum Contents {
    Answer,
    References,
    Postings,
    Stopped,
    NewReferences,
    NewPostings,
    NewStopped,
}

// A letter of no such line.
#[derive(Clone, Copy, Debug, PartialEq, Eq)]
pub struct UnknownLetter(pub u8);

impl TryFrom<u8> for Contents {
    type Error = UnknownLetter;

    ghost try_from_gives = { Decodes };

    fn try_from(letter: u8) -> Result<Contents, UnknownLetter> {
        match letter {
            b'A' => Ok(Contents::Answer),
            b'R' => Ok(Contents::References),
            b'P' => Ok(Contents::Postings),
            b'K' => Ok(Contents::Stopped),
            b'r' => Ok(Contents::NewReferences),
            b'p' => Ok(Contents::NewPostings),
            b'k' => Ok(Contents::NewStopped),
            _ => Err(UnknownLetter(letter)),
        }
    }
}

impl Contents {
    // A line that puts words into a slice, or says what a slice or the answer holds. Whether it is as the line says.
    pub fn run(
        self,
        line: &[u32],
        refs: &mut [u32],
        postings: &mut [u32],
        stopped: &mut [u32],
        answer: &[u64; 8],
    ) -> bool
        ensures value { result ≡ as_said (letter_of self) line.now refs.old postings.old stopped.old answer.now }
        ensures refs_after { refs.new ≡ put_by 114 (letter_of self) line.now refs.old }
        ensures postings_after { postings.new ≡ put_by 112 (letter_of self) line.now postings.old }
        ensures stopped_after { stopped.new ≡ put_by 107 (letter_of self) line.now stopped.old }
    {
        match self {
            Contents::Answer => return crate::is_answered(answer, line),
            Contents::References => return crate::is_held(refs, line),
            Contents::Postings => return crate::is_held(postings, line),
            Contents::Stopped => return crate::is_held(stopped, line),
            Contents::NewReferences => crate::put(refs, line),
            Contents::NewPostings => crate::put(postings, line),
            Contents::NewStopped => crate::put(stopped, line),
        }
        true
    }
}

// The line with this letter, false where no such line has it.
pub fn run_contents(
    letter: u8,
    line: &[u32],
    refs: &mut [u32],
    postings: &mut [u32],
    stopped: &mut [u32],
    answer: &[u64; 8],
) -> bool
    ensures value { result ≡ as_said letter line.now refs.old postings.old stopped.old answer.now }
    ensures refs_after { refs.new ≡ put_by 114 letter line.now refs.old }
    ensures postings_after { postings.new ≡ put_by 112 letter line.now postings.old }
    ensures stopped_after { stopped.new ≡ put_by 107 letter line.now stopped.old }
{
    match Contents::try_from(letter) {
        Ok(contents) => contents.run(line, refs, postings, stopped, answer),
        Err(_) => false,
    }
}
