//! Conditions of the bib-1 diagnostic set (ANSI/NISO Z39.50-2003, Appendix 4 ERR).

ghost use Rattle.std.specs.Prelude.{◌≡◌};
ghost use Rattle.z_types.specs.Bib1.{condition_number};

/// A condition that the gateway or a test target gives, or that the gateway knows from a target.
#[derive(Clone, Copy, PartialEq, Eq, Debug)]
pub enum Condition {
    /// Temporary system error.
    TemporarySystemError,
    /// Too many records retrieved.
    TooManyRecordsRetrieved,
    /// Present request out of range.
    PresentRequestOutOfRange,
    /// The record exceeds the preferred message size.
    RecordExceedsPreferredMessageSize,
    /// The record exceeds the exceptional record size.
    RecordExceedsExceptionalRecordSize,
    /// The result set exists, and the replace indicator is off.
    ResultSetExists,
    /// The specified combination of databases is not supported.
    CombinationOfDatabasesNotSupported,
    /// The specified element set name is not valid for the specified database.
    ElementSetNameNotValid,
    /// The result set no longer exists: the target deleted it.
    ResultSetNoLongerExists,
    /// The specified result set does not exist.
    ResultSetDoesNotExist,
    /// Resources are exhausted, and no results are available.
    ResourcesExhausted,
    /// The query type is not supported.
    QueryTypeNotSupported,
    /// Malformed query.
    MalformedQuery,
    /// The database is unavailable.
    DatabaseUnavailable,
    /// The operator is unsupported.
    OperatorUnsupported,
    /// Too many databases are specified.
    TooManyDatabases,
    /// Too many result sets were created.
    TooManyResultSets,
    /// The Use attribute is unsupported.
    UnsupportedUseAttribute,
    /// The database does not exist.
    DatabaseDoesNotExist,
    /// Access to the specified database is denied.
    AccessToDatabaseDenied,
    /// The record syntax is not supported.
    RecordSyntaxNotSupported,
}

impl Condition {
    /// Its number in the set.
    pub fn number(self) -> u32
        ensures { result ≡ condition_number self }
    {
        match self {
            Condition::TemporarySystemError => 2,
            Condition::TooManyRecordsRetrieved => 12,
            Condition::PresentRequestOutOfRange => 13,
            Condition::RecordExceedsPreferredMessageSize => 16,
            Condition::RecordExceedsExceptionalRecordSize => 17,
            Condition::ResultSetExists => 21,
            Condition::CombinationOfDatabasesNotSupported => 23,
            Condition::ElementSetNameNotValid => 25,
            Condition::ResultSetNoLongerExists => 27,
            Condition::ResultSetDoesNotExist => 30,
            Condition::ResourcesExhausted => 31,
            Condition::QueryTypeNotSupported => 107,
            Condition::MalformedQuery => 108,
            Condition::DatabaseUnavailable => 109,
            Condition::OperatorUnsupported => 110,
            Condition::TooManyDatabases => 111,
            Condition::TooManyResultSets => 112,
            Condition::UnsupportedUseAttribute => 114,
            Condition::DatabaseDoesNotExist => 235,
            Condition::AccessToDatabaseDenied => 236,
            Condition::RecordSyntaxNotSupported => 239,
        }
    }
}
