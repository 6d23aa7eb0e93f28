//! The words and numbers that describe a packet in a report, as text or as JSON. Nothing is allocated.
//!
//! `write_time`, `write_since`, `write_elapsed` and `write_absolute` write times. `icmpv4` and `icmpv6` write what a message means. `tcp`
//! writes the fields of a TCP header, `write_option` writes a TCP option, and `write_refusal` writes the reason why a packet is refused.
#![tactic(auto)]

mod absolute_time;
mod fact_words;
mod facts;
mod flags;
mod hardware_address;
mod hex;
mod icmp;
pub mod icmpv4;
pub mod icmpv6;
mod icmpv6_fields;
mod refusal;
mod shown_text;
pub mod tcp;
mod tcp_options;
mod texts;
mod time;
mod times;

pub use absolute_time::{nanoseconds_since_1970, write_absolute};
pub use fact_words::{byte_order_word, time_resolution, write_resolution};
pub use facts::write_facts;
pub use hardware_address::write_hardware_address;
pub use icmpv6_fields::{Icmpv6Fields, LISTENER_QUERY, LISTENER_REPORT_2};
pub use refusal::{write_refusal, write_zero_length};
pub use shown_text::{EscapedBytes, ShownText, write_shown};
pub use tcp_options::{write_fault, write_option};
pub use time::{write_elapsed, write_since, write_time};
pub use times::Times;
