// What is wrong with the folders of a build, said before it begins.
//
// The order of the steps has the launcher and the application looked at last. A build may take minutes until then.

use cnb_words::{Asked, CreateWords, ExportWords};
use cnb_world::Path;
use std::fs;
use std::os::unix::fs::MetadataExt;

/// Says on standard error what will refuse the image of these words, or keep it from starting.
pub(crate) fn warn(rt: &HostRuntime, asked: &Asked) {
    match asked {
        Asked::Create(options) => warn_of_create(rt, options),
        Asked::Export(options) => warn_of_export(rt, options),
        _ => {}
    }
}

fn warn_of_create(rt: &HostRuntime, options: &CreateWords) {
    let app = &options.detect.app;
    warn_of_app(rt, app);
    warn_of_launcher(rt, &options.launcher);
    warn_of_part(rt, app, "work", &options.detect.work);
    warn_of_part(rt, app, "layers", &options.layers);
    warn_of_part(rt, app, "store", &options.store);
    warn_of_one(rt, &options.layers, &options.store);
}

fn warn_of_export(rt: &HostRuntime, options: &ExportWords) {
    warn_of_app(rt, &options.app);
    warn_of_launcher(rt, &options.launcher);
    warn_of_part(rt, &options.app, "work", &options.work);
    warn_of_part(rt, &options.app, "layers", &options.layers);
    warn_of_part(rt, &options.app, "store", &options.store);
    warn_of_one(rt, &options.layers, &options.store);
}

fn warn_of_app(rt: &HostRuntime, app: &Path) {
    let path = app.as_str();
    let app = path.escape_debug();
    match fs::symlink_metadata(rt, path) {
        Ok(found) if found.is_dir() => {}
        Ok(found) if found.is_symlink() => {
            let _ = eprintln!(rt;
                "warning: --app={app} is a link, of which no image is made: name the folder that it leads to"
            );
        }
        Ok(_) => {
            let _ = eprintln!(rt;
                "warning: --app={app} is not a folder, so no image is made of it"
            );
        }
        Err(_) => {
            let _ = eprintln!(rt; "warning: --app={app} is not there, so no image is made of it");
        }
    }
}

fn warn_of_launcher(rt: &HostRuntime, launcher: &Path) {
    let launcher = launcher.as_str();
    match fs::symlink_metadata(rt, launcher) {
        Ok(found) if found.is_dir() => warn_of_program(rt, launcher),
        _ => {
            let _ = eprintln!(rt;
                "warning: --launcher={launcher} is not a folder, so no image is made with it"
            );
        }
    }
}

// An image starts by `/cnb/lifecycle/launcher`.
fn warn_of_program(rt: &HostRuntime, launcher: &str) {
    if !has_launcher(rt, launcher) {
        let launcher = launcher.escape_debug();
        let _ = eprintln!(rt;
            "warning: --launcher={launcher} has no program named launcher, so the image will not start"
        );
    }
}

fn has_launcher(rt: &HostRuntime, folder: &str) -> bool {
    let Ok(path) = format!(in rt.alloc(); "{folder}/launcher") else {
        return true;
    };
    match fs::symlink_metadata(rt, path.as_str()) {
        Ok(found) => found.is_file() && found.mode() & 0o111 != 0,
        Err(_) => false,
    }
}

fn warn_of_part(rt: &HostRuntime, app: &Path, option: &str, folder: &Path) {
    let (app, folder) = (app.as_str(), folder.as_str());
    if is_within(app, folder) {
        let folder = folder.escape_debug();
        let _ = eprintln!(rt;
            "warning: --{option}={folder} lies in the application, so it becomes a part of the image"
        );
    }
}

fn warn_of_one(rt: &HostRuntime, layers: &Path, store: &Path) {
    if layers.as_str() == store.as_str() {
        let store = store.as_str().escape_debug();
        let _ = eprintln!(rt;
            "warning: --layers and --store are one folder, {store}: each buildpack's layers are removed there"
        );
    }
}

fn is_within(folder: &str, path: &str) -> bool {
    match path.strip_prefix(folder) {
        Some(rest) => rest.is_empty() || rest.starts_with('/') || folder == "/",
        None => false,
    }
}
