// The commands, each once: what it does, and which options it takes. samples/manual compares the manual, the completions
// and the program with it.

/// A command: the options that it must be given and those that may be left out, and the words that it takes besides, with
/// an example of them.
pub(crate) struct Command {
    pub(crate) name: &'static str,
    pub(crate) summary: &'static str,
    pub(crate) must: &'static [&'static str],
    pub(crate) may: &'static [&'static str],
    pub(crate) words: &'static str,
    pub(crate) example: &'static str,
}

pub(crate) static COMMANDS: [Command; 15] = [
    Command {
        name: "detect",
        summary: "asks the buildpacks which of them fit the application",
        must: &["--order", "--buildpacks", "--app", "--platform", "--work"],
        may: &["--workers", "--record"],
        words: "",
        example: "",
    },
    Command {
        name: "analyze",
        summary: "looks at the run image and at the image of the build before",
        must: &["--store", "--run", "--work"],
        may: &["--previous"],
        words: "",
        example: "",
    },
    Command {
        name: "restore",
        summary: "gives the buildpacks what the image before and the caches keep for them",
        must: &["--store", "--work", "--layers"],
        may: &["--cache"],
        words: "",
        example: "",
    },
    Command {
        name: "build",
        summary: "runs bin/build of each chosen buildpack",
        must: &["--buildpacks", "--app", "--platform", "--work", "--layers"],
        may: &[],
        words: "",
        example: "",
    },
    Command {
        name: "export",
        summary: "makes the image of the layers, the application and the launcher",
        must: &[
            "--store",
            "--work",
            "--layers",
            "--app",
            "--launcher",
            "--image",
        ],
        may: &["--cache"],
        words: "",
        example: "",
    },
    Command {
        name: "create",
        summary: "does analyze, detect, restore, build and export in one call",
        must: &[
            "--order",
            "--buildpacks",
            "--app",
            "--platform",
            "--work",
            "--layers",
            "--store",
            "--run",
            "--launcher",
            "--image",
        ],
        may: &["--previous", "--workers", "--cache"],
        words: "",
        example: "",
    },
    Command {
        name: "rebase",
        summary: "puts an image on another run image, without a build",
        must: &["--store", "--image", "--run"],
        may: &[],
        words: "",
        example: "",
    },
    Command {
        name: "base",
        summary: "makes a run image of folders",
        must: &["--store", "--run", "--os", "--arch", "--tree"],
        may: &[],
        words: "",
        example: "",
    },
    Command {
        name: "unpack",
        summary: "lays an image in a folder that isn't there yet",
        must: &["--store", "--image", "--root"],
        may: &[],
        words: "",
        example: "",
    },
    Command {
        name: "show",
        summary: "prints the rows of an image, and what it starts",
        must: &["--store", "--image"],
        may: &[],
        words: "",
        example: "",
    },
    Command {
        name: "prune",
        summary: "removes the trees of the store that no image and no run image names",
        must: &["--store"],
        may: &[],
        words: "",
        example: "",
    },
    Command {
        name: "verify",
        summary: "reads each tree of an image, and says whether one is missing or damaged",
        must: &["--store", "--image"],
        may: &[],
        words: "",
        example: "",
    },
    Command {
        name: "check",
        summary: "follows the record of a detection, and says whether it shows the choice",
        must: &["--order", "--buildpacks", "--work", "--record"],
        may: &[],
        words: "",
        example: "",
    },
    Command {
        name: "launch",
        summary: "starts a process of an image that was unpacked, or a program as it is",
        must: &[],
        may: &["--root"],
        words: "[<type or word> ..] | -- <program> [<word> ..]",
        example: "web",
    },
    Command {
        name: "drill",
        summary: "tests the program itself: the number is from 0 to 4095",
        must: &[],
        may: &[],
        words: "<number>",
        example: "9",
    },
];

/// The command of this name.
pub(crate) fn command_of(name: &str) -> Option<&'static Command> {
    COMMANDS.iter().find(|command| command.name == name)
}
