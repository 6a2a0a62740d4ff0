// The kinds of generated blocks.
use crate::damage::{Field, damage};
use crate::generate::Shape;
use crate::random::Chance;
use fields::Bytes;

// What the blocks of a kind are called and like, the field that is damaged in them, and how many are tried.
#[derive(Clone, Copy)]
pub struct Kind {
    pub name: &'static str,
    shape: Shape,
    field: Option<Field>,
    pub blocks: usize,
}

impl Kind {
    fn new(name: &'static str, blocks: usize, shape: Shape) -> Kind {
        Kind {
            name,
            shape,
            field: None,
            blocks,
        }
    }

    fn damaged(self, field: Field) -> Kind {
        Kind {
            field: Some(field),
            ..self
        }
    }

    pub fn block(&self, chance: &mut Chance) -> Bytes {
        let mut bytes = self.shape.generate(chance);
        damage(&mut bytes, self.field, chance);
        bytes
    }
}

// Sound blocks: of any weight; then sound but for empty reads in version 2, parted, deep, or with more active reads than are solved.
// Damaged ones.
pub fn kinds() -> [Kind; 20] {
    let light = Shape::new(7, 1, 10).holes(3).weights(0, 3);
    let apart = Shape::new(14, 2, 9).holes(3).weights(0, 3).apart();
    let deep = Shape::new(4, 10, 12).holes(3).weights(0, 9);
    let crowded = Shape::new(3, 13, 14).holes(4).weights(0, 9);
    let full = Shape::new(6, 1, 6).holes(5).weights(0, 9);
    let some = full.empty(3).refused(1);
    [
        Kind::new("gapless", 1200, Shape::new(9, 0, 8)),
        Kind::new("pairs", 1200, Shape::new(24, 1, 8).holes(8)),
        Kind::new("holes", 1200, Shape::new(9, 1, 8).holes(4).weights(1, 9)),
        Kind::new("ties", 1200, Shape::new(6, 4, 9).holes(2).weights(1, 1)),
        Kind::new("weight 0", 1200, Shape::new(7, 2, 8).holes(3).weights(0, 1)),
        Kind::new("empty reads", 1200, light.empty(3).refused(3)),
        Kind::new("parts", 1200, apart),
        Kind::new("deep", 600, deep),
        Kind::new("crowded", 200, crowded),
        Kind::new("version damaged", 300, some).damaged(Field::Version),
        Kind::new("length field damaged", 300, some).damaged(Field::Size),
        Kind::new("m damaged", 600, some).damaged(Field::Columns),
        Kind::new("n damaged", 600, some).damaged(Field::Reads),
        Kind::new("L damaged", 600, some).damaged(Field::Length),
        Kind::new("L of no cell", 300, some).damaged(Field::Emptied),
        Kind::new("first column damaged", 600, some).damaged(Field::First),
        Kind::new("letter damaged", 600, full).damaged(Field::Letter),
        Kind::new("weight damaged", 600, full).damaged(Field::Weight),
        Kind::new("cut off", 600, some).damaged(Field::Cut),
        Kind::new("bytes behind", 600, some).damaged(Field::Behind),
    ]
}
