// What is often written in the place of JSON.

/// A slip: what it is, and the line on what to do, where that is known.
#[derive(Clone, Copy, Debug, PartialEq, Eq)]
pub(crate) struct Slip {
    pub(crate) words: &'static str,
    pub(crate) advice: &'static str,
}

// In texts.

pub(crate) const LINE_BREAK: Slip = Slip {
    words: "a line break in a text",
    advice: "  write \\n in its place, or the quotation mark that ends the text before it\n",
};

pub(crate) const TAB: Slip = Slip {
    words: "a tab in a text",
    advice: "  write \\t in its place\n",
};

pub(crate) const CONTROL: Slip = Slip {
    words: "a control character in a text",
    advice: "  write \\u and the four hexadecimal digits of its number in its place\n",
};

pub(crate) const ESCAPE: Slip = Slip {
    words: "an escape that JSON has not",
    advice: "  write \\\\ for a \\ that stands for itself: JSON has \\\" \\\\ \\/ \\b \\f \\n \\r \\t, and \\u with four digits\n",
};

pub(crate) const SHORT_ESCAPE: Slip = Slip {
    words: "no hexadecimal digit, where \\u has four",
    advice: "  write \\\\ for a \\ that stands for itself\n",
};

/// What follows a text in which a quotation mark stands, or one that isn't ended.
pub(crate) const QUOTATION: Slip = Slip {
    words: "the text ends at the quotation mark before",
    advice: "  write \\\" for a quotation mark in a text, and see that the text before ends with one\n",
};

// Words and numbers.

pub(crate) const NOT_A_NUMBER: Slip = Slip {
    words: "NaN, which is no JSON number",
    advice: "  among properties write null in its place; a position needs numbers, so mend or leave out its feature\n",
};

pub(crate) const INFINITE: Slip = Slip {
    words: "an infinity, which is no JSON number",
    advice: "  among properties write null in its place; a position needs numbers, so mend or leave out its feature\n",
};

/// `None`, `True` or `False`.
pub(crate) const PYTHON_WORD: Slip = Slip {
    words: "a word of Python, which JSON has not",
    advice: "  write null, true and false for None, True and False, as json.dumps of Python does\n",
};

pub(crate) const BARE_WORD: Slip = Slip {
    words: "a word that is none of true, false and null",
    advice: "  write texts in double quotes\n",
};

pub(crate) const BARE_NAME: Slip = Slip {
    words: "a name without quotes",
    advice: "  write names in double quotes\n",
};

pub(crate) const PLUS_SIGN: Slip = Slip {
    words: "a number that begins with a plus sign",
    advice: "  take away the plus sign\n",
};

pub(crate) const FRONT_ZERO: Slip = Slip {
    words: "a number with a zero in front",
    advice: "  take away the zeros in front, or write a code as 007 in double quotes\n",
};

pub(crate) const FRONT_POINT: Slip = Slip {
    words: "a number that begins with a point",
    advice: "  write a zero in front of the point\n",
};

pub(crate) const LAST_POINT: Slip = Slip {
    words: "no digit after the point of a number",
    advice: "  take away the point, or write a zero after it\n",
};

pub(crate) const OTHER_NUMBER: Slip = Slip {
    words: "a number in no form of JSON",
    advice: "  write numbers as 1000, -0.5 or 1.5e3\n",
};

// Marks.

pub(crate) const COMMENT: Slip = Slip {
    words: "a comment, which JSON has none of",
    advice: "  take away all comments\n",
};

pub(crate) const SINGLE_QUOTE: Slip = Slip {
    words: "a single quote, where JSON has double ones",
    advice: "  write texts and names in double quotes, as json.dumps of Python does\n",
};

pub(crate) const CURVED_QUOTE: Slip = Slip {
    words: "a typographic quotation mark, where JSON has a plain one",
    advice: "  write texts and names in plain double quotes: \"\n",
};

pub(crate) const NO_BREAK: Slip = Slip {
    words: "a no-break space, which is no white space of JSON",
    advice: "  write a plain space in its place\n",
};

pub(crate) const ORDER_MARK: Slip = Slip {
    words: "a byte order mark, which stands at the front of a file alone",
    advice: "  take it away\n",
};

pub(crate) const LAST_COMMA: Slip = Slip {
    words: "the bracket comes after a comma",
    advice: "  take away the comma: JSON has none after the last value\n",
};

pub(crate) const SECOND_COMMA: Slip = Slip {
    words: "a comma after a comma",
    advice: "  take away one of them, or write what is missing between\n",
};

pub(crate) const FRONT_COMMA: Slip = Slip {
    words: "a comma with nothing before it",
    advice: "  take away the comma, or write what is missing before it\n",
};

pub(crate) const NO_COMMA: Slip = Slip {
    words: "no comma between two values",
    advice: "",
};

pub(crate) const NO_MEMBER_COMMA: Slip = Slip {
    words: "no comma between a member and this text",
    advice: "",
};

pub(crate) const NO_COLON: Slip = Slip {
    words: "no colon after a name",
    advice: "",
};

pub(crate) const NO_VALUE: Slip = Slip {
    words: "no value after a colon",
    advice: "  write a value there: null where there is none\n",
};

pub(crate) const ARRAY_COLON: Slip = Slip {
    words: "a colon in an array, where values have no names",
    advice: "",
};

/// A brace that an array is to end before.
pub(crate) const OPEN_ARRAY: Slip = Slip {
    words: "a } before the ] that ends an array",
    advice: "",
};

/// A bracket that an object is to end before.
pub(crate) const OPEN_OBJECT: Slip = Slip {
    words: "a ] before the } that ends an object",
    advice: "",
};

pub(crate) const EXTRA_BRACKET: Slip = Slip {
    words: "a bracket too many: all that were open are closed",
    advice: "",
};

pub(crate) const MORE_TEXT: Slip = Slip {
    words: "more text after the end of the value",
    advice: "",
};

// What isn't there, where no more is known.

pub(crate) const VALUE: Slip = Slip {
    words: "no JSON value begins with this",
    advice: "",
};

pub(crate) const NAME: Slip = Slip {
    words: "no name in double quotes, which a member begins with",
    advice: "",
};

pub(crate) const NEXT_ELEMENT: Slip = Slip {
    words: "neither a comma nor the ] that ends the array",
    advice: "",
};

pub(crate) const NEXT_MEMBER: Slip = Slip {
    words: "neither a comma nor the } that ends the object",
    advice: "",
};

// Whole files.

pub(crate) const SCRIPT: Slip = Slip {
    words: "a script, which is no JSON",
    advice: "  leave the value alone: take away what stands before its first bracket and after its last\n",
};

pub(crate) const COLUMNS: Slip = Slip {
    words: "columns, as CSV has, which are no JSON",
    advice: "  make GeoJSON of them, as by ogr2ogr -f GeoJSON out.json in.csv -oo X_POSSIBLE_NAMES=lon -oo Y_POSSIBLE_NAMES=lat\n",
};

pub(crate) const FRONT_WORD: Slip = Slip {
    words: "no JSON text begins with this word",
    advice: "",
};
