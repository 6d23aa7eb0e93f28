//! The errors of all calls, and the layers, length sources and kinds of values that the errors contain.

pub mod packet;

pub use net_base::err::{
    ErrorText, Layer, LenError, LenSource, TextPart, ValueTooBigError, ValueType, tcp,
};
