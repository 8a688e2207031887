// What holds of each line.
ghost use Rattle.detect_record.specs.LineLaws.{LineReadsBack, LinesReadBack};

/// The text of a line is read as that line, and a record's bytes as its lines.
pub fn lines_read_back()
    ensures line { LineReadsBack }
    ensures lines { LinesReadBack }
{}
