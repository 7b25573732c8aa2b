ghost use Rattle.wire.specs.Fields.{ReadsAs, Always};
ghost use Rattle.wire.specs.Forms.{form_word};

/// Which command a line is, by its first word.
#[derive(Clone, Copy, Debug, PartialEq, Eq)]
pub(crate) enum Form {
    Limits,
    Add,
    Dep,
    Fee,
    Remove,
    Mine,
    Evict,
    Stage,
    Commit,
    Abort,
    Settle,
    Trim,
    Unmine,
    Compare,
    Order,
    Diagram,
    Proof,
    Cluster,
    Ancestors,
    Descendants,
    Chunk,
    Before,
    Block,
    Count,
    Dump,
}

/// The command whose first word this is.
pub(crate) fn form_of(word: &[u8]) -> Option<Form>
    ensures { ReadsAs form_word Always word.now result }
{
    match word {
        b"limits" => Some(Form::Limits),
        b"add" => Some(Form::Add),
        b"dep" => Some(Form::Dep),
        b"fee" => Some(Form::Fee),
        b"remove" => Some(Form::Remove),
        b"mine" => Some(Form::Mine),
        b"evict" => Some(Form::Evict),
        b"stage" => Some(Form::Stage),
        b"commit" => Some(Form::Commit),
        b"abort" => Some(Form::Abort),
        b"settle" => Some(Form::Settle),
        b"trim" => Some(Form::Trim),
        b"unmine" => Some(Form::Unmine),
        b"compare" => Some(Form::Compare),
        b"order" => Some(Form::Order),
        b"diagram" => Some(Form::Diagram),
        b"proof" => Some(Form::Proof),
        b"cluster" => Some(Form::Cluster),
        b"ancestors" => Some(Form::Ancestors),
        b"descendants" => Some(Form::Descendants),
        b"chunk" => Some(Form::Chunk),
        b"before" => Some(Form::Before),
        b"block" => Some(Form::Block),
        b"count" => Some(Form::Count),
        b"dump" => Some(Form::Dump),
        _ => None,
    }
}
