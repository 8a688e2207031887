// The options, each once: what its value has to be, what it means, what holds without it, and an example.

/// What an option's value has to be.
#[derive(Clone, Copy)]
pub(crate) enum Kind {
    Path,
    Name,
    Os,
    Arch,
    Workers,
}

impl Kind {
    /// How usages show the value.
    pub(crate) fn shown(self) -> &'static str {
        match self {
            Kind::Path => "<path>",
            Kind::Name => "<name>",
            Kind::Os => "<os>",
            Kind::Arch => "<arch>",
            Kind::Workers => "<number>",
        }
    }
}

/// An option, with its name and its dashes. `default` is empty where it must be given.
pub(crate) struct OptionRow {
    pub(crate) name: &'static str,
    pub(crate) kind: Kind,
    pub(crate) is_repeated: bool,
    pub(crate) meaning: &'static str,
    pub(crate) default: &'static str,
    pub(crate) example: &'static str,
}

pub(crate) static OPTIONS: [OptionRow; 18] = [
    OptionRow {
        name: "--app",
        kind: Kind::Path,
        is_repeated: false,
        meaning: "the source folder of the application",
        default: "",
        example: "/src",
    },
    OptionRow {
        name: "--arch",
        kind: Kind::Arch,
        is_repeated: false,
        meaning: "the processor that the run image is for",
        default: "",
        example: "amd64",
    },
    OptionRow {
        name: "--buildpacks",
        kind: Kind::Path,
        is_repeated: false,
        meaning: "the folder that holds <id>/<version>/buildpack.toml of each buildpack",
        default: "",
        example: "/buildpacks",
    },
    OptionRow {
        name: "--cache",
        kind: Kind::Path,
        is_repeated: true,
        meaning: "a folder that keeps layers from build to build; may be given several times",
        default: "no cache",
        example: "/cache",
    },
    OptionRow {
        name: "--image",
        kind: Kind::Name,
        is_repeated: false,
        meaning: "the image's name in the store",
        default: "",
        example: "hello",
    },
    OptionRow {
        name: "--launcher",
        kind: Kind::Path,
        is_repeated: false,
        meaning: "the folder that holds the program `launcher`",
        default: "",
        example: "/launcher",
    },
    OptionRow {
        name: "--layers",
        kind: Kind::Path,
        is_repeated: false,
        meaning: "the folder of the layers",
        default: "",
        example: "/layers",
    },
    OptionRow {
        name: "--order",
        kind: Kind::Path,
        is_repeated: false,
        meaning: "the order file",
        default: "",
        example: "/order.toml",
    },
    OptionRow {
        name: "--os",
        kind: Kind::Os,
        is_repeated: false,
        meaning: "the operating system that the run image is for",
        default: "",
        example: "linux",
    },
    OptionRow {
        name: "--platform",
        kind: Kind::Path,
        is_repeated: false,
        meaning: "the platform's folder; the files in its folder env are variables for buildpacks",
        default: "",
        example: "/platform",
    },
    OptionRow {
        name: "--previous",
        kind: Kind::Name,
        is_repeated: false,
        meaning: "the image of the build before",
        default: "none, but with create the image itself",
        example: "hello",
    },
    OptionRow {
        name: "--record",
        kind: Kind::Path,
        is_repeated: false,
        meaning: "the file with the record of a detection, which detect writes and check reads",
        default: "no record",
        example: "/record",
    },
    OptionRow {
        name: "--root",
        kind: Kind::Path,
        is_repeated: false,
        meaning: "the folder that an image is unpacked to",
        default: "/",
        example: "/root",
    },
    OptionRow {
        name: "--run",
        kind: Kind::Name,
        is_repeated: false,
        meaning: "the run image's name in the store",
        default: "",
        example: "base",
    },
    OptionRow {
        name: "--store",
        kind: Kind::Path,
        is_repeated: false,
        meaning: "the folder of the store",
        default: "",
        example: "/store",
    },
    OptionRow {
        name: "--tree",
        kind: Kind::Path,
        is_repeated: true,
        meaning: "a folder of the run image; may be given several times, and later ones lie over earlier ones",
        default: "",
        example: "/base",
    },
    OptionRow {
        name: "--work",
        kind: Kind::Path,
        is_repeated: false,
        meaning: "the folder of the documents that one phase leaves for the next",
        default: "",
        example: "/work",
    },
    OptionRow {
        name: "--workers",
        kind: Kind::Workers,
        is_repeated: false,
        meaning: "how many buildpacks are asked at the same time, 1 to 64",
        default: "8",
        example: "8",
    },
];

/// The option of this name.
pub(crate) fn option_of(name: &str) -> Option<&'static OptionRow> {
    OPTIONS.iter().find(|option| option.name == name)
}
