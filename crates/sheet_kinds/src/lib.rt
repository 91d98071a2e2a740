// The kinds of records, and which lengths are good for them.
#![tactic(auto)]

ghost use Rattle.std.specs.Prelude.{◌≡◌};
ghost use Rattle.sheet_kinds.specs.Kinds.{fits_by, fits_kind, good_length};
ghost use Rattle.sheet_kinds.specs.Bytes.{row_of, Decodes};

#[derive(Clone, Copy, Debug, PartialEq, Eq)]
pub enum Kind {
    Insert,
    Remove,
    Query,
    Replace,
}

// A byte that stands for no kind.
#[derive(Clone, Copy, Debug, PartialEq, Eq)]
pub struct UnknownKind(pub u8);

impl TryFrom<u8> for Kind {
    type Error = UnknownKind;

    ghost try_from_gives = { Decodes };

    fn try_from(byte: u8) -> Result<Kind, UnknownKind> {
        match byte {
            1 => Ok(Kind::Insert),
            2 => Ok(Kind::Remove),
            3 => Ok(Kind::Query),
            4 => Ok(Kind::Replace),
            _ => Err(UnknownKind(byte)),
        }
    }
}

impl Kind {
    // Whether this is the length of a record of this kind.
    pub fn fits(self, len: usize) -> bool
        ensures { result ≡ fits_kind len (row_of self) }
    {
        match self {
            Kind::Insert => fits_by(len, 9, true),
            Kind::Remove => fits_by(len, 5, false),
            Kind::Query => fits_by(len, 21, true),
            Kind::Replace => fits_by(len, 13, true),
        }
    }
}

fn fits_by(len: usize, fixed: usize, hashes: bool) -> bool
    ensures { result ≡ fits_by len fixed hashes }
{
    1 <= len && len <= 8192 && len % 4 == 1 && fixed <= len && (hashes || len == fixed)
}

// Whether this is the length of a record of this kind byte.
pub fn good_length(len: usize, byte: u8) -> bool
    ensures { result ≡ good_length len byte }
{
    match Kind::try_from(byte) {
        Ok(kind) => kind.fits(len),
        Err(_) => false,
    }
}
