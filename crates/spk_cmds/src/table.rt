//! The table of commands. Each row has a command's forms, and each form the kinds of its words.

ghost use Rattle.std.specs.Prelude.{◌≡◌};
ghost use Rattle.spk_cmds.specs.Table.{table};
ghost use Rattle.spk_cmds.specs.TableViews.{rows_seen};

use crate::command::{AppStyle, DumpStyle, SolveStyle};
use crate::form::{Form, Forms, Keyword, Kind, Maker, Row, Styled, Tail};
use crate::options::Echo;
use spk_num::style::Style;
use spk_num::sweep::Sweep;

/// The words after `app_style` where the application has no others.
const STYLE_ALONE: &[Kind] = &[Kind::AnyWord];

/// The style of an application and the number of values that a site may have.
const STYLE_AND_VALUES: &[Kind] = &[Kind::AnyWord, Kind::WholeNumber(1, 1_000_000)];

const APPS: &[Styled] = &[
    Styled {
        word: "ising",
        form: Form {
            maker: Maker::App(AppStyle::Ising),
            kinds: STYLE_ALONE,
            tail: Tail::NoTail,
        },
    },
    Styled {
        word: "ising/single",
        form: Form {
            maker: Maker::App(AppStyle::IsingSingle),
            kinds: STYLE_ALONE,
            tail: Tail::NoTail,
        },
    },
    Styled {
        word: "potts",
        form: Form {
            maker: Maker::Potts,
            kinds: STYLE_AND_VALUES,
            tail: Tail::NoTail,
        },
    },
    Styled {
        word: "potts/neighonly",
        form: Form {
            maker: Maker::PottsNeighonly,
            kinds: STYLE_AND_VALUES,
            tail: Tail::NoTail,
        },
    },
    Styled {
        word: "diffusion",
        form: Form {
            maker: Maker::Diffusion,
            kinds: &[
                Kind::AnyWord,
                Kind::OneOf(&["off", "linear"], &[]),
                Kind::OneOf(&["hop"], &[]),
            ],
            tail: Tail::NoTail,
        },
    },
];

/// A word for a periodic face, or for one that isn't periodic.
const FACE: Kind = Kind::OneOf(&["p"], &["n"]);

/// The words after `lattice`.
const STYLE_AND_SCALE: &[Kind] = &[Kind::AnyWord, Kind::DecimalNumber(1, 1_000_000_000_000)];

const LATTICES: &[Styled] = &[
    Styled {
        word: "line/2n",
        form: Form {
            maker: Maker::Lattice(Style::Line2),
            kinds: STYLE_AND_SCALE,
            tail: Tail::NoTail,
        },
    },
    Styled {
        word: "sq/4n",
        form: Form {
            maker: Maker::Lattice(Style::Sq4),
            kinds: STYLE_AND_SCALE,
            tail: Tail::NoTail,
        },
    },
    Styled {
        word: "sq/8n",
        form: Form {
            maker: Maker::Lattice(Style::Sq8),
            kinds: STYLE_AND_SCALE,
            tail: Tail::NoTail,
        },
    },
    Styled {
        word: "tri",
        form: Form {
            maker: Maker::Lattice(Style::Tri),
            kinds: STYLE_AND_SCALE,
            tail: Tail::NoTail,
        },
    },
    Styled {
        word: "sc/6n",
        form: Form {
            maker: Maker::Lattice(Style::Sc6),
            kinds: STYLE_AND_SCALE,
            tail: Tail::NoTail,
        },
    },
    Styled {
        word: "sc/26n",
        form: Form {
            maker: Maker::Lattice(Style::Sc26),
            kinds: STYLE_AND_SCALE,
            tail: Tail::NoTail,
        },
    },
    Styled {
        word: "bcc",
        form: Form {
            maker: Maker::Lattice(Style::Bcc),
            kinds: STYLE_AND_SCALE,
            tail: Tail::NoTail,
        },
    },
    Styled {
        word: "fcc",
        form: Form {
            maker: Maker::Lattice(Style::Fcc),
            kinds: STYLE_AND_SCALE,
            tail: Tail::NoTail,
        },
    },
];

/// A bound of a region.
const SIDE: Kind = Kind::BoundNumber(-10_000_000_000_000, 10_000_000_000_000);

/// A coordinate of a region's centre.
const COORDINATE: Kind = Kind::DecimalNumber(-10_000_000_000_000, 10_000_000_000_000);

const RADIUS: Kind = Kind::DecimalNumber(0, 10_000_000_000_000);

/// The words before the parts of a region. The last says how many parts there are.
const NAME_SHAPE_AND_COUNT: &[Kind] = &[
    Kind::NameWord,
    Kind::AnyWord,
    Kind::WholeNumber(0, 4_294_967_295),
];

const SHAPES: &[Styled] = &[
    Styled {
        word: "block",
        form: Form {
            maker: Maker::Block,
            kinds: &[
                Kind::NameWord,
                Kind::AnyWord,
                SIDE,
                SIDE,
                SIDE,
                SIDE,
                SIDE,
                SIDE,
            ],
            tail: Tail::NoTail,
        },
    },
    Styled {
        word: "sphere",
        form: Form {
            maker: Maker::Sphere,
            kinds: &[
                Kind::NameWord,
                Kind::AnyWord,
                COORDINATE,
                COORDINATE,
                COORDINATE,
                RADIUS,
            ],
            tail: Tail::NoTail,
        },
    },
    Styled {
        word: "cylinder",
        form: Form {
            maker: Maker::Cylinder,
            kinds: &[
                Kind::NameWord,
                Kind::AnyWord,
                Kind::OneOf(&["x", "y", "z"], &[]),
                COORDINATE,
                COORDINATE,
                RADIUS,
                SIDE,
                SIDE,
            ],
            tail: Tail::NoTail,
        },
    },
    Styled {
        word: "union",
        form: Form {
            maker: Maker::Union,
            kinds: NAME_SHAPE_AND_COUNT,
            tail: Tail::Counted(Kind::NameWord),
        },
    },
    Styled {
        word: "intersect",
        form: Form {
            maker: Maker::Intersect,
            kinds: NAME_SHAPE_AND_COUNT,
            tail: Tail::Counted(Kind::NameWord),
        },
    },
];

/// A word for the values of sites.
const SITE: Kind = Kind::OneOf(&["site", "i1"], &[]);

const SET_PAIRS: Tail = Tail::Pairs(
    &[
        Keyword {
            word: "fraction",
            kind: Kind::DecimalNumber(1, 1_000_000),
        },
        Keyword {
            word: "region",
            kind: Kind::NameWord,
        },
    ],
    &[],
);

const SETS: &[Styled] = &[
    Styled {
        word: "value",
        form: Form {
            maker: Maker::SetValue,
            kinds: &[SITE, Kind::AnyWord, Kind::WholeNumber(0, 4_294_967_295)],
            tail: SET_PAIRS,
        },
    },
    Styled {
        word: "range",
        form: Form {
            maker: Maker::SetRange,
            kinds: &[
                SITE,
                Kind::AnyWord,
                Kind::WholeUpToNext(0, 4_294_967_295),
                Kind::WholeNumber(0, 4_294_967_295),
            ],
            tail: SET_PAIRS,
        },
    },
    Styled {
        word: "unique",
        form: Form {
            maker: Maker::SetUnique,
            kinds: &[SITE, Kind::AnyWord],
            tail: SET_PAIRS,
        },
    },
];

/// A column of a text dump.
const FIELD: Kind = Kind::OneOf(&["id", "site", "i1", "x", "y", "z", "energy"], &[]);

/// The words of a dump before its fields.
const NAME_STYLE_DELTA_AND_FILE: &[Kind] = &[
    Kind::NameWord,
    Kind::AnyWord,
    Kind::DecimalNumber(1, 1_000_000_000_000_000),
    Kind::FileWord,
];

const DUMPS: &[Styled] = &[
    Styled {
        word: "text",
        form: Form {
            maker: Maker::Dump(DumpStyle::Text),
            kinds: NAME_STYLE_DELTA_AND_FILE,
            tail: Tail::UpTo(16, FIELD),
        },
    },
    Styled {
        word: "sites",
        form: Form {
            maker: Maker::Dump(DumpStyle::Sites),
            kinds: NAME_STYLE_DELTA_AND_FILE,
            tail: Tail::NoTail,
        },
    },
];

const ROWS: &[Row] = &[
    Row {
        name: "seed",
        forms: Forms::One(Form {
            maker: Maker::Seed,
            kinds: &[Kind::WholeNumber(1, 2_147_483_646)],
            tail: Tail::NoTail,
        }),
    },
    Row {
        name: "app_style",
        forms: Forms::Several(0, APPS, &[]),
    },
    Row {
        name: "dimension",
        forms: Forms::One(Form {
            maker: Maker::Dimension,
            kinds: &[Kind::WholeNumber(1, 3)],
            tail: Tail::NoTail,
        }),
    },
    Row {
        name: "lattice",
        forms: Forms::Several(0, LATTICES, &[]),
    },
    Row {
        name: "boundary",
        forms: Forms::One(Form {
            maker: Maker::Boundary,
            kinds: &[FACE, FACE, FACE],
            tail: Tail::NoTail,
        }),
    },
    Row {
        name: "processors",
        forms: Forms::Unbuilt,
    },
    Row {
        name: "region",
        forms: Forms::Several(1, SHAPES, &[]),
    },
    Row {
        name: "create_box",
        forms: Forms::One(Form {
            maker: Maker::CreateBox,
            kinds: &[Kind::NameWord],
            tail: Tail::NoTail,
        }),
    },
    Row {
        name: "create_sites",
        forms: Forms::One(Form {
            maker: Maker::CreateSites,
            kinds: &[Kind::OneOf(&["box"], &[])],
            tail: Tail::NoTail,
        }),
    },
    Row {
        name: "set",
        forms: Forms::Several(1, SETS, &[]),
    },
    Row {
        name: "read_sites",
        forms: Forms::One(Form {
            maker: Maker::ReadSites,
            kinds: &[Kind::FileWord],
            tail: Tail::NoTail,
        }),
    },
    Row {
        name: "write_restart",
        forms: Forms::Unbuilt,
    },
    Row {
        name: "read_restart",
        forms: Forms::Unbuilt,
    },
    Row {
        name: "sector",
        forms: Forms::Unbuilt,
    },
    Row {
        name: "solve_style",
        forms: Forms::Several(
            0,
            &[
                Styled {
                    word: "linear",
                    form: Form {
                        maker: Maker::Solve(SolveStyle::Linear),
                        kinds: &[Kind::AnyWord],
                        tail: Tail::NoTail,
                    },
                },
                Styled {
                    word: "tree",
                    form: Form {
                        maker: Maker::Solve(SolveStyle::Tree),
                        kinds: &[Kind::AnyWord],
                        tail: Tail::NoTail,
                    },
                },
                Styled {
                    word: "group",
                    form: Form {
                        maker: Maker::Solve(SolveStyle::Group),
                        kinds: &[Kind::AnyWord],
                        tail: Tail::Optional(&[
                            Kind::DecimalNumber(
                                -1_000_000_000_000_000_000,
                                1_000_000_000_000_000_000,
                            ),
                            Kind::DecimalNumber(
                                -1_000_000_000_000_000_000,
                                1_000_000_000_000_000_000,
                            ),
                        ]),
                    },
                },
            ],
            &[],
        ),
    },
    Row {
        name: "sweep",
        forms: Forms::Several(
            0,
            &[
                Styled {
                    word: "random",
                    form: Form {
                        maker: Maker::Sweep(Sweep::Random),
                        kinds: &[Kind::AnyWord],
                        tail: Tail::NoTail,
                    },
                },
                Styled {
                    word: "raster",
                    form: Form {
                        maker: Maker::Sweep(Sweep::Raster),
                        kinds: &[Kind::AnyWord],
                        tail: Tail::NoTail,
                    },
                },
            ],
            &["color"],
        ),
    },
    Row {
        name: "temperature",
        forms: Forms::One(Form {
            maker: Maker::Temperature,
            kinds: &[Kind::DecimalNumber(0, 1_000_000_000_000)],
            tail: Tail::NoTail,
        }),
    },
    Row {
        name: "stats",
        forms: Forms::One(Form {
            maker: Maker::Stats,
            kinds: &[Kind::DecimalNumber(0, 1_000_000_000_000_000)],
            tail: Tail::NoTail,
        }),
    },
    Row {
        name: "diag_style",
        forms: Forms::Several(
            0,
            &[Styled {
                word: "energy",
                form: Form {
                    maker: Maker::DiagEnergy,
                    kinds: &[Kind::AnyWord],
                    tail: Tail::NoTail,
                },
            }],
            &[],
        ),
    },
    Row {
        name: "dump",
        forms: Forms::Several(1, DUMPS, &[]),
    },
    Row {
        name: "undump",
        forms: Forms::One(Form {
            maker: Maker::Undump,
            kinds: &[Kind::NameWord],
            tail: Tail::NoTail,
        }),
    },
    Row {
        name: "run",
        forms: Forms::One(Form {
            maker: Maker::Run,
            kinds: &[Kind::DecimalNumber(0, 4_000_000_000_000_000)],
            tail: Tail::NoTail,
        }),
    },
    Row {
        name: "print",
        forms: Forms::One(Form {
            maker: Maker::Print,
            kinds: &[Kind::AnyWord],
            tail: Tail::NoTail,
        }),
    },
    Row {
        name: "echo",
        forms: Forms::Several(
            0,
            &[
                Styled {
                    word: "none",
                    form: Form {
                        maker: Maker::SetEcho(Echo::None),
                        kinds: &[Kind::AnyWord],
                        tail: Tail::NoTail,
                    },
                },
                Styled {
                    word: "screen",
                    form: Form {
                        maker: Maker::SetEcho(Echo::Screen),
                        kinds: &[Kind::AnyWord],
                        tail: Tail::NoTail,
                    },
                },
                Styled {
                    word: "log",
                    form: Form {
                        maker: Maker::SetEcho(Echo::Log),
                        kinds: &[Kind::AnyWord],
                        tail: Tail::NoTail,
                    },
                },
                Styled {
                    word: "both",
                    form: Form {
                        maker: Maker::SetEcho(Echo::Both),
                        kinds: &[Kind::AnyWord],
                        tail: Tail::NoTail,
                    },
                },
            ],
            &[],
        ),
    },
];

/// The commands in the order of the manual.
#[tactic(auto, unfolding(crate::specs::Table::table))]
pub fn rows() -> &'static [Row]
    ensures { rows_seen result.now ≡ table }
{
    ROWS
}
