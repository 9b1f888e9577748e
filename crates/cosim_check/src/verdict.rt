//! What a judge says of a stream.

/// A field of a record, in the order in which they are compared.
#[derive(Clone, Copy, PartialEq, Eq, Debug)]
pub enum Field {
    /// The hart's number.
    Hart,
    /// The kind of the record: 0 a commit, 1 an exception, 2 an interrupt, 3 a word of the host.
    Kind,
    /// The mode before the step: 0, 1 and 3 for U, S and M, and 4 for debug mode.
    Mode,
    /// The pc before the step.
    Pc,
    /// The instruction's word.
    Insn,
    /// The register that was written.
    Rd,
    /// The value that it got.
    Value,
    /// The address of a store.
    StoreAt,
    /// How many bytes were stored.
    StoreSize,
    /// What was stored.
    StoreValue,
    /// What a device answered.
    Device,
    /// What a volatile register read as.
    Volatile,
    /// The cause of an exception or of an interrupt.
    Cause,
    /// The trap value.
    Tval,
    /// The word of the host.
    Host,
}

/// What a judge says of a stream. Records are counted from 0.
#[derive(Clone, Copy, PartialEq, Eq, Debug)]
pub enum Verdict {
    /// So many records passed, and nothing was refused.
    Passing(u64),
    /// Record `n` is not allowed: this is the first field that differs, with its allowed value and the
    /// record's own, which differ; a part that is absent has none.
    Disallowed {
        n: u64,
        field: Field,
        allowed: Option<u64>,
        given: Option<u64>,
    },
    /// Line `n` is no record's: `column` is the length of its longest front that is the front of one.
    BadLine {
        n: u64,
        column: u16,
    },
    /// As many records passed as may, and more follows.
    TooMany(u64),
}
