//! The reader of captures for a page in a browser, compiled to WebAssembly. Nothing is allocated: the page lends all memory.
//!
//! A page reads a capture in pieces. A piece consists of a head and of bytes of the file. The head is what the reader needs of the bytes
//! before: the header of a classic capture, or the section header and the interface descriptions of the current section of a pcapng file.
//! So a piece is a capture of its own. `report_page_rows` reads the packets of a piece, and `report_page_head` returns the head of the next
//! piece. `report_page_line` writes the line of a packet, exactly as the program `capture_report` writes it. `report_page_chooses` states
//! whether the program reports a packet with `--host` and `--port`. `report_page_timeline` counts packets by intervals of time, as the
//! summary of the program does. A row contains a packet in the form that it takes.
//!
//! Every export has a contract that cites the definitions of `capture_file`, `capture_packet`, `capture_summary`, `capture_text` and
//! `timeline`. No export has a precondition. A function that writes a text returns the length of the text, and writes nothing if the text
//! does not fit.
#![tactic(auto)]

mod bins;
mod chart;
mod choice;
mod end_text;
mod event;
mod facts;
mod head;
mod line;
mod piece;
mod row;
mod rows;
mod span;
mod text;
mod time;
mod words;
