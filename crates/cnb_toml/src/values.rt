// The kinds of values in documents.
ghost use Rattle.std.specs.Prelude.{true, refl, Ok, Err, [], if◌then◌else◌};
ghost use Rattle.toml.specs.Data.{string, boolean, integer};
ghost use Rattle.cnb_world.specs.Path.{is_short_path};
ghost use Rattle.cnb_toml.specs.Form.{text_of, truth_of, whole_of, filled_text_of, name_of};
ghost use Rattle.cnb_toml.specs.Reading.{Answers};
ghost use Rattle.cnb_toml.specs.Keys.{key_in, is_key, key_members};
ghost use Rattle.cnb_toml.specs.Names.{is_bp_id, is_bp_version, is_layer_name, is_process_type, is_image_name};
ghost use Rattle.cnb_toml.specs.Names.{is_target_name};
ghost use Rattle.cnb_toml.specs.Written.{is_filled};
ghost use Rattle.cnb_toml.specs.WrittenLaws.{zero_within, name_read, filled_read, key_read};

use crate::fault::{DocFault, of_name};
use crate::fields::required_at;
use crate::form::{Form, TableForm};
use crate::image_name::{ImageName, is_target_name};
use crate::layer_name::LayerName;
use crate::names::{BpId, BpVersion, Key};
use crate::process_type::ProcType;
use crate::writing::put_at;
use crate::written::{Written, WrittenTable};
use cnb_world::{Memory, Path, PathFault, Text};
use std::alloc::Global;
use toml::{Table, Value};

impl Form for Text {
    type Value = Text;

    ghost value_of = { text_of };

    fn read(alloc: Global, value: &Value) -> Result<Text, DocFault> {
        match value.as_str() {
            Some(text) => Ok(Text::of(alloc, text)?),
            None => Err(DocFault::wrong(alloc)),
        }
    }
}

impl Written for Text {
    ghost data_of = { string };

    ghost is_typed = { λ _. true };

    ghost is_sound = { λ _. true };

    ghost nesting = { 0 };

    fn write(alloc: Global, value: &Text) -> Result<Value, Memory> {
        Ok(Value::string(alloc, value.as_str())?)
    }

    ghost reads_back = { λ value typed sound. refl };

    ghost dates = { λ value. refl };

    ghost within = { λ value sound. zero_within 0 };
}

/// The texts that aren't empty, as values.
pub struct FilledText;

impl Form for FilledText {
    type Value = Text;

    ghost value_of = { filled_text_of };

    fn read(alloc: Global, value: &Value) -> Result<Text, DocFault> {
        match value.as_str() {
            Some(text) if !text.is_empty() => Ok(Text::of(alloc, text)?),
            Some(_) => Err(DocFault::wrong(alloc)),
            None => Err(DocFault::wrong(alloc)),
        }
    }
}

impl Written for FilledText {
    ghost data_of = { string };

    ghost is_typed = { λ _. true };

    ghost is_sound = { is_filled };

    ghost nesting = { 0 };

    fn write(alloc: Global, value: &Text) -> Result<Value, Memory> {
        Ok(Value::string(alloc, value.as_str())?)
    }

    ghost reads_back = { λ value typed sound. filled_read value sound };

    ghost dates = { λ value. refl };

    ghost within = { λ value sound. zero_within 0 };
}

impl Form for bool {
    type Value = bool;

    ghost value_of = { truth_of };

    fn read(alloc: Global, value: &Value) -> Result<bool, DocFault> {
        match value.as_bool() {
            Some(truth) => Ok(truth),
            None => Err(DocFault::wrong(alloc)),
        }
    }
}

impl Written for bool {
    ghost data_of = { boolean };

    ghost is_typed = { λ _. true };

    ghost is_sound = { λ _. true };

    ghost nesting = { 0 };

    fn write(_: Global, value: &bool) -> Result<Value, Memory> {
        Ok(Value::Boolean(*value))
    }

    ghost reads_back = { λ value typed sound. refl };

    ghost dates = { λ value. refl };

    ghost within = { λ value sound. zero_within 0 };
}

impl Form for i64 {
    type Value = i64;

    ghost value_of = { whole_of };

    fn read(alloc: Global, value: &Value) -> Result<i64, DocFault> {
        match value.as_integer() {
            Some(number) => Ok(number),
            None => Err(DocFault::wrong(alloc)),
        }
    }
}

impl Written for i64 {
    ghost data_of = { integer };

    ghost is_typed = { λ _. true };

    ghost is_sound = { λ _. true };

    ghost nesting = { 0 };

    fn write(_: Global, value: &i64) -> Result<Value, Memory> {
        Ok(Value::Integer(*value))
    }

    ghost reads_back = { λ value typed sound. refl };

    ghost dates = { λ value. refl };

    ghost within = { λ value sound. zero_within 0 };
}

impl Form for BpId {
    type Value = BpId;

    ghost value_of = { name_of is_bp_id };

    fn read(alloc: Global, value: &Value) -> Result<BpId, DocFault> {
        match value.as_str() {
            Some(text) => of_name(alloc, BpId::parse(alloc, text)),
            None => Err(DocFault::wrong(alloc)),
        }
    }
}

impl Written for BpId {
    ghost data_of = { string };

    ghost is_typed = { is_bp_id };

    ghost is_sound = { λ _. true };

    ghost nesting = { 0 };

    fn write(alloc: Global, value: &BpId) -> Result<Value, Memory> {
        Ok(Value::string(alloc, value.as_str())?)
    }

    ghost reads_back = { λ value typed sound. name_read is_bp_id value typed };

    ghost dates = { λ value. refl };

    ghost within = { λ value sound. zero_within 0 };
}

impl Form for BpVersion {
    type Value = BpVersion;

    ghost value_of = { name_of is_bp_version };

    fn read(alloc: Global, value: &Value) -> Result<BpVersion, DocFault> {
        match value.as_str() {
            Some(text) => of_name(alloc, BpVersion::parse(alloc, text)),
            None => Err(DocFault::wrong(alloc)),
        }
    }
}

impl Written for BpVersion {
    ghost data_of = { string };

    ghost is_typed = { is_bp_version };

    ghost is_sound = { λ _. true };

    ghost nesting = { 0 };

    fn write(alloc: Global, value: &BpVersion) -> Result<Value, Memory> {
        Ok(Value::string(alloc, value.as_str())?)
    }

    ghost reads_back = { λ value typed sound. name_read is_bp_version value typed };

    ghost dates = { λ value. refl };

    ghost within = { λ value sound. zero_within 0 };
}

impl Form for LayerName {
    type Value = LayerName;

    ghost value_of = { name_of is_layer_name };

    fn read(alloc: Global, value: &Value) -> Result<LayerName, DocFault> {
        match value.as_str() {
            Some(text) => of_name(alloc, LayerName::parse(alloc, text)),
            None => Err(DocFault::wrong(alloc)),
        }
    }
}

impl Written for LayerName {
    ghost data_of = { string };

    ghost is_typed = { is_layer_name };

    ghost is_sound = { λ _. true };

    ghost nesting = { 0 };

    fn write(alloc: Global, value: &LayerName) -> Result<Value, Memory> {
        Ok(Value::string(alloc, value.as_str())?)
    }

    ghost reads_back = { λ value typed sound. name_read is_layer_name value typed };

    ghost dates = { λ value. refl };

    ghost within = { λ value sound. zero_within 0 };
}

impl Form for ProcType {
    type Value = ProcType;

    ghost value_of = { name_of is_process_type };

    fn read(alloc: Global, value: &Value) -> Result<ProcType, DocFault> {
        match value.as_str() {
            Some(text) => of_name(alloc, ProcType::parse(alloc, text)),
            None => Err(DocFault::wrong(alloc)),
        }
    }
}

impl Written for ProcType {
    ghost data_of = { string };

    ghost is_typed = { is_process_type };

    ghost is_sound = { λ _. true };

    ghost nesting = { 0 };

    fn write(alloc: Global, value: &ProcType) -> Result<Value, Memory> {
        Ok(Value::string(alloc, value.as_str())?)
    }

    ghost reads_back = { λ value typed sound. name_read is_process_type value typed };

    ghost dates = { λ value. refl };

    ghost within = { λ value sound. zero_within 0 };
}

impl Form for ImageName {
    type Value = ImageName;

    ghost value_of = { name_of is_image_name };

    fn read(alloc: Global, value: &Value) -> Result<ImageName, DocFault> {
        match value.as_str() {
            Some(text) => of_name(alloc, ImageName::parse(alloc, text)),
            None => Err(DocFault::wrong(alloc)),
        }
    }
}

impl Written for ImageName {
    ghost data_of = { string };

    ghost is_typed = { is_image_name };

    ghost is_sound = { λ _. true };

    ghost nesting = { 0 };

    fn write(alloc: Global, value: &ImageName) -> Result<Value, Memory> {
        Ok(Value::string(alloc, value.as_str())?)
    }

    ghost reads_back = { λ value typed sound. name_read is_image_name value typed };

    ghost dates = { λ value. refl };

    ghost within = { λ value sound. zero_within 0 };
}

/// The names of systems and architectures, as values.
pub struct TargetName;

impl Form for TargetName {
    type Value = Text;

    ghost value_of = { name_of is_target_name };

    fn read(alloc: Global, value: &Value) -> Result<Text, DocFault> {
        match value.as_str() {
            Some(text) if is_target_name(text) => Ok(Text::of(alloc, text)?),
            Some(_) => Err(DocFault::name(alloc)),
            None => Err(DocFault::wrong(alloc)),
        }
    }
}

impl Written for TargetName {
    ghost data_of = { string };

    ghost is_typed = { λ _. true };

    ghost is_sound = { is_target_name };

    ghost nesting = { 0 };

    fn write(alloc: Global, value: &Text) -> Result<Value, Memory> {
        Ok(Value::string(alloc, value.as_str())?)
    }

    ghost reads_back = { λ value typed sound. name_read is_target_name value sound };

    ghost dates = { λ value. refl };

    ghost within = { λ value sound. zero_within 0 };
}

impl Form for Path {
    type Value = Path;

    ghost value_of = { name_of is_short_path };

    fn read(alloc: Global, value: &Value) -> Result<Path, DocFault> {
        match value.as_str() {
            Some(text) => short_path(alloc, text),
            None => Err(DocFault::wrong(alloc)),
        }
    }
}

impl Written for Path {
    ghost data_of = { string };

    ghost is_typed = { λ _. true };

    ghost is_sound = { is_short_path };

    ghost nesting = { 0 };

    fn write(alloc: Global, value: &Path) -> Result<Value, Memory> {
        Ok(Value::string(alloc, value.as_str())?)
    }

    ghost reads_back = { λ value typed sound. name_read is_short_path value sound };

    ghost dates = { λ value. refl };

    ghost within = { λ value sound. zero_within 0 };
}

fn short_path(alloc: Global, text: &str) -> Result<Path, DocFault>
    ensures { Answers result (if is_short_path text.now then Ok text.now else Err (DocFault.Name [])) }
{
    match Path::parse_short(alloc, text) {
        Ok(path) => Ok(path),
        Err(PathFault::NotPath) => Err(DocFault::name(alloc)),
        Err(PathFault::Memory) => Err(DocFault::Memory),
    }
}

impl TableForm for Key {
    type Value = Key;

    ghost value_in = { key_in };

    fn read(alloc: Global, table: &Table) -> Result<Key, DocFault> {
        let id = required_at::<BpId>(alloc, table, "id")?;
        let version = required_at::<BpVersion>(alloc, table, "version")?;
        Ok(Key { id, version })
    }
}

impl WrittenTable for Key {
    ghost members_of = { key_members };

    ghost is_typed = { is_key };

    ghost is_sound = { λ _. true };

    ghost nesting = { 0 };

    fn write(alloc: Global, value: &Key) -> Result<Table, Memory> {
        let mut table = Table::new(alloc);
        put_at::<BpId>(alloc, &mut table, "id", &value.id)?;
        put_at::<BpVersion>(alloc, &mut table, "version", &value.version)?;
        Ok(table)
    }

    ghost reads_back = { key_read };

    ghost dates = { λ value. refl };

    ghost within = { λ value sound. zero_within 0 };
}
