//! Why a table is refused.

ghost use Rattle.std.specs.Prelude.{◌≡◌};
ghost use Rattle.fhe_params.specs.Names.{name_of_list, name_of_field};

use refusals::Refusal;

/// Why no table was read.
pub type TableRefusal = Refusal<TableFault>;

/// What is wrong with the text of a table.
#[derive(Clone, Copy, Debug, PartialEq, Eq)]
pub enum TableFault {
    /// It is no TOML.
    Toml,
    /// The first field that is missing, of another kind, or outside its limit.
    Field {
        list: ListName,
        /// The place of the entry in its list, from 0.
        entry: u32,
        field: FieldName,
    },
}

/// The part of a table that has a fault.
#[derive(Clone, Copy, Debug, PartialEq, Eq)]
pub enum ListName {
    Version,
    Cost,
    Glwe,
    Lwe,
    Boot,
    Switch,
}

/// The field that has a fault. `List` stands for the part as a whole.
#[derive(Clone, Copy, Debug, PartialEq, Eq)]
pub enum FieldName {
    Version,
    Switch,
    Boot,
    Lin,
    List,
    K,
    LogN,
    Ones,
    Error,
    N,
    Base,
    Level,
}

impl ListName {
    /// The key of this part in a table, and its name in the line of a fault.
    pub fn name(&self) -> &'static str
        ensures { result.now ≡ name_of_list self.now }
    {
        match self {
            ListName::Version => "version",
            ListName::Cost => "cost",
            ListName::Glwe => "glwe",
            ListName::Lwe => "lwe",
            ListName::Boot => "boot",
            ListName::Switch => "switch",
        }
    }
}

impl FieldName {
    /// The key of this field, and its name in the line of a fault.
    pub fn name(&self) -> &'static str
        ensures { result.now ≡ name_of_field self.now }
    {
        match self {
            FieldName::Version => "version",
            FieldName::Switch => "switch",
            FieldName::Boot => "boot",
            FieldName::Lin => "lin",
            FieldName::List => "list",
            FieldName::K => "k",
            FieldName::LogN => "log_n",
            FieldName::Ones => "ones",
            FieldName::Error => "error",
            FieldName::N => "n",
            FieldName::Base => "base",
            FieldName::Level => "level",
        }
    }
}
