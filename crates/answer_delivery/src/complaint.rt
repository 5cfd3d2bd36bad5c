//! What there is to complain of in a text that reads as no model.

ghost use Rattle.std.specs.Prelude.{◌≡◌, IfOk};
ghost use Rattle.answer_delivery.specs.Complaints.{static_message, message_of, byte_line};

use model_core::StaticKind;
use sig_base::{NoMemory, Text, put_counted, put_texts};
use std::alloc::Global;

/// What there is to complain of in a text, at one of its bytes.
#[derive(Clone, Copy, Debug, PartialEq, Eq)]
pub enum Complaint {
    /// The byte begins no token.
    BadByte,
    /// No model text goes on with the token that begins here.
    Unexpected,
    /// The part has more openings than a part may have.
    TooDeep,
    /// A static rule is broken.
    Static(StaticKind),
    /// A part of a snapshot isn't good for its model.
    BadSnapshot,
}

/// What a complaint says of a broken static rule.
fn static_message(kind: StaticKind) -> &'static [u8]
    ensures { result.now ≡ static_message kind }
{
    match kind {
        StaticKind::NameTooLong => b"name too long",
        StaticKind::UnknownName => b"unknown name",
        StaticKind::DuplicateName => b"duplicate name",
        StaticKind::WrongUse => b"wrong use",
        StaticKind::KindMismatch => b"kind mismatch",
        StaticKind::ValueCount => b"value count",
        StaticKind::LiteralTooLarge => b"literal too large",
        StaticKind::EmptyRange => b"empty range",
        StaticKind::InitialOutside => b"initial outside",
        StaticKind::SizeOutside => b"size outside",
        StaticKind::PriorityOutside => b"priority outside",
        StaticKind::StreamOutside => b"stream outside",
        StaticKind::DrawOutside => b"draw outside",
        StaticKind::WeightOutside => b"weight outside",
        StaticKind::VersionUnknown => b"unknown version",
        StaticKind::VersionNeeded => b"needs version 2",
        StaticKind::TooMany => b"too many",
        StaticKind::ModelTooLong => b"model too long",
    }
}

impl Complaint {
    /// What the line says of it.
    fn message(self) -> &'static [u8]
        ensures { result.now ≡ message_of self }
    {
        match self {
            Complaint::BadByte => b"bad byte",
            Complaint::Unexpected => b"unexpected",
            Complaint::TooDeep => b"too deep",
            Complaint::Static(kind) => static_message(kind),
            Complaint::BadSnapshot => b"bad snapshot",
        }
    }

    /// Its line for the error output. Bytes count from 0.
    pub fn line(self, alloc: Global, at: usize) -> Result<Text, NoMemory>
        ensures { IfOk result (λ line. line ≡ byte_line at (message_of self)) }
    {
        let mut line = Vec::new(alloc);
        put_counted(&mut line, b"sigma: byte ", at as u64)?;
        put_texts(&mut line, &[b": ", self.message(), b"\n"])?;
        Ok(Text::from_vec(line))
    }
}
