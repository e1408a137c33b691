//! The two lines of an entry, each by its fields.

/// What the first line of an entry holds: fields 1 to 9, in this order (IGES 5.3, 2.2.4.4).
#[derive(Clone, Copy)]
pub struct FirstHalf {
    /// Field 1: the entity type.
    pub kind: i64,
    /// Field 2: the number of the record's first line in the parameter section, from 1.
    pub record_first: i64,
    /// Field 3: the structure.
    pub structure: i64,
    /// Field 4: the line font pattern.
    pub font: i64,
    /// Field 5: the level.
    pub level: i64,
    /// Field 6: the view.
    pub view: i64,
    /// Field 7: the transformation matrix.
    pub matrix: i64,
    /// Field 8: the label display.
    pub display: i64,
    /// Field 9: the status number, eight digits in ASCII.
    pub status: [u8; 8],
}

/// What the second line of an entry holds: fields 11 to 15, 18 and 19, in this order (IGES 5.3, 2.2.4.4).
#[derive(Clone, Copy)]
pub struct SecondHalf {
    /// Field 11: the entity type again.
    pub kind: i64,
    /// Field 12: the line weight.
    pub weight: i64,
    /// Field 13: the colour.
    pub colour: i64,
    /// Field 14: the number of the record's lines.
    pub record_count: i64,
    /// Field 15: the form.
    pub form: i64,
    /// Field 18: the entity label, its eight bytes as they stand.
    pub label: [u8; 8],
    /// Field 19: the entity subscript.
    pub subscript: i64,
}
