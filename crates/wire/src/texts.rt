//! The text of certificates: its lines one by one, and a whole text.
mod draft;
mod fault;
mod row;
mod text;

pub use draft::CertText;
pub use fault::TextFault;
pub use text::read_certificate;
