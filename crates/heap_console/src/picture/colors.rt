//! The colours of a picture: one for each of the classes with the most bytes.
use heap_class::ObjKind;
use heap_questions::{CLASS_ROWS, kind_row};
use std::alloc::{AllocError, Global};

// The colours, the first for the class with the most bytes. The last is that of all classes without a colour of their own.
pub(crate) const COLORS: [&[u8]; 13] = [
    b"#4269d0", b"#efb118", b"#ff725c", b"#6cc5b0", b"#3ca951", b"#ff8ab7", b"#a463f2", b"#97bbf5",
    b"#9c6b4e", b"#b5a642", b"#2f8f9d", b"#d4526e", b"#9498a0",
];

// The number of the colour of classes that have none of their own.
pub(crate) const OTHER: usize = 12;

// The colour of each row of a histogram.
#[derive(Drop)]
pub(crate) struct Palette {
    colors: Vec<usize>,
}

impl Palette {
    // Gives a colour to each row of a histogram of `count` rows, of which `ranked` has the numbers, the largest first. Fails if an
    // allocation fails.
    pub(crate) fn new(
        alloc: Global,
        count: usize,
        ranked: &[usize],
    ) -> Result<Palette, AllocError> {
        let mut colors = vec![in alloc; OTHER; count]?;
        let mut color = 0;
        for row in ranked {
            if color < OTHER && *row < colors.len() {
                colors[*row] = color;
                color += 1;
            }
        }
        Ok(Palette { colors })
    }

    // Returns the number of the colour of an object of this kind.
    pub(crate) fn color_of(&self, kind: ObjKind) -> usize {
        let row = match kind {
            ObjKind::Instance(class) | ObjKind::Array(class) => {
                CLASS_ROWS.saturating_add(class as usize)
            }
            ObjKind::Prim(kind) => kind_row(kind),
        };
        if row < self.colors.len() {
            self.colors[row]
        } else {
            OTHER
        }
    }
}
