//! Errors that calls return, their texts, and the layers, length sources and kinds of values that these errors contain.

mod error_text;
mod layer;
mod len_error;
mod len_source;
pub mod tcp;
mod value_too_big_error;
mod value_type;

pub use error_text::{ErrorText, TextPart};
pub use layer::Layer;
pub use len_error::LenError;
pub use len_source::LenSource;
pub use value_too_big_error::ValueTooBigError;
pub use value_type::ValueType;
