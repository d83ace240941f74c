//! Why a database isn't opened.
ghost use Rattle.std.specs.Prelude.{◌≡◌};
ghost use Rattle.up_program.specs.Unopened.{unopened_words};

/// Why a database isn't opened. Each has its words.
#[derive(Clone, Copy, Debug, PartialEq, Eq, Drop)]
pub enum Unopened {
    /// Memory was refused.
    Memory,
    /// The path can't be opened, or nothing can be made there, or it is one that is never taken.
    Path,
    /// Another program has the file open.
    Locked,
    /// SQLite left a journal beside the file, which only it can play back.
    Journal,
    /// The files hold no sound database, or their disk failed.
    Damaged,
    /// The database is another product's.
    OtherProduct,
    /// The database is this product's, of a schema that this program doesn't know.
    NewerSchema,
    /// The keys of the database are another scheme's.
    OtherScheme,
}

impl Unopened {
    /// The words for it.
    pub(crate) fn words(self) -> &'static str
        ensures { result.now ≡ unopened_words self }
    {
        match self {
            Unopened::Memory => "there is too little memory",
            Unopened::Path => "its path can't be opened or made",
            Unopened::Locked => "another program has it open",
            Unopened::Journal => "SQLite left a journal beside it",
            Unopened::Damaged => "it is damaged, or its disk fails",
            Unopened::OtherProduct => "it is another product's",
            Unopened::NewerSchema => "it has a newer schema",
            Unopened::OtherScheme => "its keys are of the other scheme",
        }
    }
}
