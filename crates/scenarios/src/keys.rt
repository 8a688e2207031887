// The keys of files of rows, and what they hold.
use row_files::{Form, Shape};

const TEXTS: Shape = Shape::List(&Shape::Text);

const TEXTS_BY_NAME: Shape = Shape::ByName(&Shape::Text);

const BYTE: Shape = Shape::Number(0, 255);

const CALLS: Shape = Shape::List(&Shape::Number(0, i64::MAX));

const FILES: Shape = Shape::List(&Shape::Form(&FILE));

const ROWS: Shape = Shape::List(&Shape::Form(&SCENARIO));

/// A file of rows. Those of `base` are only stood on; those of `row` are run.
pub(crate) const SCENARIO_FILE: Form = Form {
    needed: &[],
    optional: &[("base", ROWS), ("row", ROWS)],
};

/// The file of trees.
pub(crate) const TREE_FILE: Form = Form {
    needed: &[("tree", Shape::List(&Shape::Form(&TREE)))],
    optional: &[],
};

// What stands in a tree, at paths from its root.
const TREE: Form = Form {
    needed: &[("name", Shape::Text)],
    optional: &[("files", FILES)],
};

// What one run is given, and what is wanted of it.
const SCENARIO: Form = Form {
    needed: &[("name", Shape::Text)],
    optional: &[
        ("base", Shape::Text),
        ("words", Shape::Text),
        ("env", TEXTS_BY_NAME),
        ("order", Shape::Text),
        ("buildpacks", Shape::Text),
        ("composites", TEXTS_BY_NAME),
        ("targets", TEXTS_BY_NAME),
        ("stored", Shape::Text),
        ("lays", TEXTS_BY_NAME),
        ("files", FILES),
        ("replies", TEXTS_BY_NAME),
        ("plans", TEXTS_BY_NAME),
        ("plays", Shape::List(&Shape::Form(&PLAY))),
        ("shelves", Shape::List(&Shape::Form(&SHELF))),
        ("spawners", BYTE),
        ("failing", Shape::Form(&FAILING)),
        ("every-call", Shape::Flag),
        ("every-prefix", Shape::Text),
        ("over-liars", Shape::Text),
        ("want", Shape::Form(&WANT)),
    ],
};

// What stands at a path before the run: a file with `text`, `times` over, or with `bytes`, unless another kind is
// named.
const FILE: Form = Form {
    needed: &[("path", Shape::Text)],
    optional: &[
        ("text", Shape::Text),
        ("times", Shape::Number(0, 4_294_967_295)),
        ("bytes", Shape::List(&BYTE)),
        ("exec", Shape::Flag),
        ("folder", Shape::Flag),
        ("link", Shape::Text),
        ("odd", Shape::Flag),
    ],
};

// How a child of a program ends, what it writes on descriptor 3, and what it removes, leaves and lays.
const PLAY: Form = Form {
    needed: &[("program", Shape::Text)],
    optional: &[
        ("code", Shape::Number(-2_147_483_648, 2_147_483_647)),
        ("side", Shape::Text),
        ("removes", TEXTS),
        ("leaves", FILES),
        ("lays", TEXTS_BY_NAME),
    ],
};

// A cache: the trees that it holds, with a `?` behind the name of one whose bytes were emptied, its rows document, and
// the numbers, from 0, of its calls that fail.
const SHELF: Form = Form {
    needed: &[],
    optional: &[
        ("holds", Shape::Text),
        ("rows", Shape::Text),
        ("failing", CALLS),
    ],
};

// The numbers, from 0, of the calls that fail.
const FAILING: Form = Form {
    needed: &[],
    optional: &[("world", CALLS), ("spawner", CALLS), ("sink", CALLS)],
};

// What a run comes to.
const WANT: Form = Form {
    needed: &[("status", BYTE)],
    optional: &[
        ("prints", TEXTS),
        ("asked", Shape::Text),
        ("environments", Shape::ByName(&TEXTS_BY_NAME)),
        ("ran", TEXTS),
        ("run-environments", Shape::ByName(&TEXTS_BY_NAME)),
        ("documents", Shape::ByName(&Shape::Table)),
        ("files", TEXTS_BY_NAME),
        ("kinds", TEXTS_BY_NAME),
        ("laid", TEXTS_BY_NAME),
        ("stored", Shape::Text),
        ("shelves", Shape::List(&Shape::Form(&WANTED_SHELF))),
        ("partly", TEXTS),
        ("whole-alone", TEXTS),
    ],
};

// What a cache holds in the end.
const WANTED_SHELF: Form = Form {
    needed: &[],
    optional: &[("holds", Shape::Text), ("rows", Shape::Table)],
};
