//! The tests, by what they try: which sources are translated, and which side of an engine asks.

mod carried;
mod made;
mod sides;
mod translated;
