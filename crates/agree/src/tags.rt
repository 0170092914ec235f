// The kinds of records, in the order of their tags.

#[derive(Clone, Copy, PartialEq, Eq)]
pub(crate) enum Tag {
    End,
    List,
    TableFill,
    TableBytes,
    TableByte,
    TableLent,
    Build,
    LogFill,
    LogLent,
    LogCheck,
    Start,
    State,
    Step,
    Conversion,
    Entry,
    Refusal,
    LogByte,
    Drive,
    Quick,
    Write,
    File,
}

// A byte that no record begins with.
#[derive(Clone, Copy)]
pub(crate) struct NoTag;

impl TryFrom<u8> for Tag {
    type Error = NoTag;

    fn try_from(byte: u8) -> Result<Tag, NoTag> {
        match byte {
            0 => Ok(Tag::End),
            1 => Ok(Tag::List),
            2 => Ok(Tag::TableFill),
            3 => Ok(Tag::TableBytes),
            4 => Ok(Tag::TableByte),
            5 => Ok(Tag::TableLent),
            6 => Ok(Tag::Build),
            7 => Ok(Tag::LogFill),
            8 => Ok(Tag::LogLent),
            9 => Ok(Tag::LogCheck),
            10 => Ok(Tag::Start),
            11 => Ok(Tag::State),
            12 => Ok(Tag::Step),
            13 => Ok(Tag::Conversion),
            14 => Ok(Tag::Entry),
            15 => Ok(Tag::Refusal),
            16 => Ok(Tag::LogByte),
            17 => Ok(Tag::Drive),
            18 => Ok(Tag::Quick),
            19 => Ok(Tag::Write),
            20 => Ok(Tag::File),
            _ => Err(NoTag),
        }
    }
}
