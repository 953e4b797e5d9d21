//! The numbers of tags, by the standards' names: of the context class where nothing else is said
//! (ANSI/NISO Z39.50-2003, the definition of APDUs).

// units (PDU)
pub const INIT_REQUEST: u32 = 20;

pub const INIT_RESPONSE: u32 = 21;

pub const SEARCH_REQUEST: u32 = 22;

pub const SEARCH_RESPONSE: u32 = 23;

pub const PRESENT_REQUEST: u32 = 24;

pub const PRESENT_RESPONSE: u32 = 25;

pub const SCAN_REQUEST: u32 = 35;

pub const SCAN_RESPONSE: u32 = 36;

pub const CLOSE: u32 = 48;

// every unit
pub const REFERENCE_ID: u32 = 2;

// InitializeRequest and InitializeResponse
pub const PROTOCOL_VERSION: u32 = 3;

pub const OPTIONS: u32 = 4;

pub const PREFERRED_MESSAGE_SIZE: u32 = 5;

pub const EXCEPTIONAL_RECORD_SIZE: u32 = 6;

pub const ID_AUTHENTICATION: u32 = 7;

pub const INIT_RESULT: u32 = 12;

pub const IMPLEMENTATION_ID: u32 = 110;

pub const IMPLEMENTATION_NAME: u32 = 111;

pub const IMPLEMENTATION_VERSION: u32 = 112;

// SearchRequest
pub const SMALL_SET_UPPER_BOUND: u32 = 13;

pub const LARGE_SET_LOWER_BOUND: u32 = 14;

pub const MEDIUM_SET_PRESENT_NUMBER: u32 = 15;

pub const REPLACE_INDICATOR: u32 = 16;

pub const RESULT_SET_NAME: u32 = 17;

pub const DATABASE_NAMES: u32 = 18;

pub const SMALL_SET_ELEMENT_SET_NAMES: u32 = 100;

pub const MEDIUM_SET_ELEMENT_SET_NAMES: u32 = 101;

pub const PREFERRED_RECORD_SYNTAX: u32 = 104;

pub const QUERY: u32 = 21;

// DatabaseName and ElementSetNames
pub const DATABASE_NAME: u32 = 105;

pub const GENERIC_ELEMENT_SET_NAME: u32 = 0;

pub const DATABASE_SPECIFIC: u32 = 1;

// SearchResponse
pub const RESULT_COUNT: u32 = 23;

pub const NUMBER_OF_RECORDS_RETURNED: u32 = 24;

pub const NEXT_RESULT_SET_POSITION: u32 = 25;

pub const SEARCH_STATUS: u32 = 22;

pub const PRESENT_STATUS: u32 = 27;

// PresentRequest
pub const RESULT_SET_ID: u32 = 31;

pub const RESULT_SET_START_POINT: u32 = 30;

pub const NUMBER_OF_RECORDS_REQUESTED: u32 = 29;

pub const RECORD_COMPOSITION_SIMPLE: u32 = 19;

pub const RECORD_COMPOSITION_COMPLEX: u32 = 209;

pub const ADDITIONAL_RANGES: u32 = 212;

// ScanRequest
pub const SCAN_DATABASE_NAMES: u32 = 3;

pub const TERM_LIST_AND_START_POINT: u32 = 102;

pub const STEP_SIZE: u32 = 5;

pub const NUMBER_OF_TERMS_REQUESTED: u32 = 6;

pub const PREFERRED_POSITION_IN_RESPONSE: u32 = 7;

// ScanResponse, ListEntries, Entry and TermInfo
pub const SCAN_STATUS: u32 = 4;

pub const NUMBER_OF_ENTRIES_RETURNED: u32 = 5;

pub const POSITION_OF_TERM: u32 = 6;

pub const SCAN_ENTRIES: u32 = 7;

pub const LIST_ENTRIES: u32 = 1;

pub const NONSURROGATE_DIAGNOSTICS: u32 = 2;

pub const TERM_INFO: u32 = 1;

pub const GLOBAL_OCCURRENCES: u32 = 2;

// Close
pub const CLOSE_REASON: u32 = 211;

pub const DIAGNOSTIC_INFORMATION: u32 = 3;

// Query, RPNStructure and Operator
pub const TYPE_1_QUERY: u32 = 1;

pub const TYPE_101_QUERY: u32 = 101;

pub const OPERAND: u32 = 0;

pub const RPN_RPN_OP: u32 = 1;

pub const OPERATOR: u32 = 46;

pub const AND_OPERATOR: u32 = 0;

pub const OR_OPERATOR: u32 = 1;

pub const AND_NOT_OPERATOR: u32 = 2;

pub const PROXIMITY_OPERATOR: u32 = 3;

// Operand: AttributesPlusTerm
pub const ATTRIBUTES_PLUS_TERM: u32 = 102;

pub const RESULT_SET_PLUS_ATTRIBUTES: u32 = 214;

// AttributeList and AttributeElement
pub const ATTRIBUTE_LIST: u32 = 44;

pub const ATTRIBUTE_SET: u32 = 1;

pub const ATTRIBUTE_TYPE: u32 = 120;

pub const ATTRIBUTE_VALUE_NUMERIC: u32 = 121;

pub const ATTRIBUTE_VALUE_COMPLEX: u32 = 224;

// Term
pub const GENERAL_TERM: u32 = 45;

pub const NUMERIC_TERM: u32 = 215;

pub const CHARACTER_STRING_TERM: u32 = 216;

pub const OBJECT_IDENTIFIER_TERM: u32 = 217;

pub const DATE_TIME_TERM: u32 = 218;

pub const EXTERNAL_TERM: u32 = 219;

pub const INTEGER_AND_UNIT_TERM: u32 = 220;

pub const NULL_TERM: u32 = 221;

// Records, NamePlusRecord and the encoding of an EXTERNAL (X.690, 8.18)
pub const RESPONSE_RECORDS: u32 = 28;

pub const NON_SURROGATE_DIAGNOSTIC: u32 = 130;

pub const MULTIPLE_NON_SURROGATE_DIAGNOSTICS: u32 = 205;

pub const NAME_OF_NAME_PLUS_RECORD: u32 = 0;

pub const RECORD_OF_NAME_PLUS_RECORD: u32 = 1;

pub const RETRIEVAL_RECORD: u32 = 1;

pub const SURROGATE_DIAGNOSTIC: u32 = 2;

pub const SINGLE_ASN1_TYPE: u32 = 0;

pub const OCTET_ALIGNED: u32 = 1;

pub const ARBITRARY: u32 = 2;

// the universal class (X.690:2021, 8.3, 8.9, 8.18, 8.19, 8.23)
pub const INTEGER: u32 = 2;

pub const OBJECT_IDENTIFIER: u32 = 6;

pub const EXTERNAL: u32 = 8;

pub const SEQUENCE: u32 = 16;

pub const VISIBLE_STRING: u32 = 26;

pub const GENERAL_STRING: u32 = 27;
