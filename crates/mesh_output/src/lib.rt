//! What a run writes: the lines of its report, the text of its mesh, and the file of its fields.
//!
//! Each writer appends exactly its bytes and takes no memory: a line as one piece, a mesh and fields in pages of tens of
//! kilobytes. After `Failed` a part of them was written. A `Page` serves other files too. A `Pen` is the open file of a
//! shelf as a sink, and the writers of whole files create, write and seal one. The lines stand in `specs/Lines.antt`,
//! the file of fields in `specs/FieldFiles.antt`, what a page holds in `specs/Pages.antt`, what a pen tells in
//! `specs/Pens.antt`, and how far a file came in `cello_io`'s `Filing`.
#![tactic(auto)]

mod bytes;
mod fields;
mod mesh;
mod numbers;
mod page;
mod pen;
mod report;

pub use bytes::put_bytes;
pub use fields::{write_fields, write_fields_file};
pub use mesh::{write_mesh, write_mesh_file};
pub use numbers::put_numbers;
pub use page::{Page, make_room};
pub use pen::Pen;
pub use report::{
    write_cycle_line, write_end, write_field_line, write_header, write_phase_line,
    write_restart_line,
};
