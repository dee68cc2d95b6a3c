//! The forms of header words.

ghost use Rattle.std.specs.Prelude.{◌≡◌};
ghost use Rattle.nam_catalog.specs.Greatest.{greatest_number};

/// How the header word of a record is laid out.
#[derive(Clone, Copy, Debug, PartialEq, Eq)]
pub enum Form {
    /// Commit numbers of 32 bits.
    Narrow,
    /// Commit numbers of 45 bits, and fewer workers.
    Wide,
    /// Commit numbers of 32 bits, and a locked header names its holder.
    Held,
}

/// The greatest commit number that a header of the form can bear.
pub fn greatest(form: Form) -> u64
    ensures { result ≡ greatest_number form }
{
    match form {
        Form::Narrow | Form::Held => 4_294_967_295,
        Form::Wide => 35_184_372_088_831,
    }
}
