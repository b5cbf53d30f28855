// The bytes that the format names.
pub(crate) const COMMA: u8 = b',';

pub(crate) const CARRIAGE_RETURN: u8 = 13;

pub(crate) const LINE_FEED: u8 = 10;

pub(crate) const QUOTE: u8 = b'"';

pub(crate) const ZERO: u8 = b'0';

// The header record, without what ends it.
pub(crate) const HEADER: &[u8] = b"C,D,T,P1,P2,S";
