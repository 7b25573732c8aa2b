ghost use Rattle.std.specs.Prelude.{◌≡◌, ℕ, [], ◌∷◌, ◌++◌, Option, decimal, map};
ghost use Rattle.outside.specs.Transfers.{Writes};
ghost use Rattle.graph_model.specs.Replies.{refusal_text, point_line};
ghost use Rattle.graph_model.specs.Texts.{tx_line, edge_line, chunk_line, flow_line};
ghost use Rattle.graph_model.specs.Words.{line_text};
ghost use Rattle.graph_model.specs.Words.{spaced};
ghost use Rattle.wire.specs.Pieces.{GoesOn, number_after, words_text, sum_words};

use fee_rate::Sum;
use graph_model::{Flow, Refusal, TxId};
use itoa::{Buffer, Integer};
use outside::{Failed, Sink};

/// Writes a word as a line.
pub fn write_word<K: Sink>(sink: &mut K, word: &str) -> Result<(), Failed>
    ensures { Writes (K.written sink.old) (K.written sink.new) (K.faults sink.old) (K.faults sink.new) result
        (line_text word.now) }
{
    let so_far = sink.write_all(word.as_bytes());
    more(so_far, sink, b"\n")
}

/// Goes on with the next piece of a line where all so far was written.
fn more<K: Sink>(so_far: Result<(), Failed>, sink: &mut K, piece: &[u8]) -> Result<(), Failed>
    ensures { GoesOn so_far (K.written sink.old) (K.written sink.new) (K.faults sink.old)
        (K.faults sink.new) result piece.now }
{
    match so_far {
        Ok(()) => sink.write_all(piece),
        Err(failed) => Err(failed),
    }
}

/// Goes on with a space and a number.
fn more_number<K: Sink, N: Integer>(
    so_far: Result<(), Failed>,
    sink: &mut K,
    n: N,
) -> Result<(), Failed>
    ensures { GoesOn so_far (K.written sink.old) (K.written sink.new) (K.faults sink.old)
        (K.faults sink.new) result (32 ∷ N.text n) }
{
    let mut buffer = Buffer::new();
    let so_far = more(so_far, sink, b" ");
    more(so_far, sink, buffer.format(n).as_bytes())
}

/// Goes on with a space and a number where there is one.
fn more_kept<K: Sink>(
    so_far: Result<(), Failed>,
    sink: &mut K,
    kept: Option<u64>,
) -> Result<(), Failed>
    ensures { GoesOn so_far (K.written sink.old) (K.written sink.new) (K.faults sink.old)
        (K.faults sink.new) result (number_after kept) }
{
    match kept {
        Some(n) => more_number(so_far, sink, n),
        None => more(so_far, sink, b""),
    }
}

/// Writes a refusal as a line.
pub fn write_refusal<K: Sink>(sink: &mut K, refusal: &Refusal) -> Result<(), Failed>
    ensures { Writes (K.written sink.old) (K.written sink.new) (K.faults sink.old) (K.faults sink.new) result
        (refusal_text refusal.now) }
{
    let so_far = sink.write_all(b"refused ");
    let so_far = more(so_far, sink, refusal.word().as_bytes());
    let so_far = more_kept(so_far, sink, refusal.kept());
    more(so_far, sink, b"\n")
}

/// Goes on with a space and a number for each of these.
fn more_numbers<K: Sink>(
    so_far: Result<(), Failed>,
    sink: &mut K,
    ids: &[u64],
) -> Result<(), Failed>
    ensures { GoesOn so_far (K.written sink.old) (K.written sink.new) (K.faults sink.old)
        (K.faults sink.new) result (words_text (map decimal ids.now)) }
{
    let mut so_far = so_far;
    for id in ids {
        so_far = more_number(so_far, sink, *id);
    }
    so_far
}

/// Goes on with a space and the fee, and a space and the size, where there are sums.
fn more_sums<K: Sink>(
    so_far: Result<(), Failed>,
    sink: &mut K,
    sums: Option<Sum>,
) -> Result<(), Failed>
    ensures { GoesOn so_far (K.written sink.old) (K.written sink.new) (K.faults sink.old)
        (K.faults sink.new) result (words_text (sum_words sums)) }
{
    match sums {
        Some(sums) => {
            let so_far = more_number(so_far, sink, sums.fee);
            more_number(so_far, sink, sums.size)
        }
        None => more(so_far, sink, b""),
    }
}

/// Writes a line of a word, sums where there are some (the fee in satoshis, then the size in
/// virtual bytes), and numbers: names in their order, or a count.
pub fn write_ids<K: Sink>(
    sink: &mut K,
    head: &str,
    sums: Option<Sum>,
    ids: &[u64],
) -> Result<(), Failed>
    ensures { Writes (K.written sink.old) (K.written sink.new) (K.faults sink.old) (K.faults sink.new) result
        (line_text (spaced (head.now ∷ (sum_words sums ++ map decimal ids.now)))) }
{
    let so_far = sink.write_all(head.as_bytes());
    let so_far = more_sums(so_far, sink, sums);
    let so_far = more_numbers(so_far, sink, ids);
    more(so_far, sink, b"\n")
}

/// Writes the line of a part: `chunk FEE SIZE ID ..`, the fee in satoshis, the size in virtual bytes, the names in their
/// order.
pub fn write_chunk<K: Sink>(sink: &mut K, rate: Sum, ids: &[TxId]) -> Result<(), Failed>
    ensures { Writes (K.written sink.old) (K.written sink.new) (K.faults sink.old) (K.faults sink.new) result
        (line_text (chunk_line (record { rate = rate; ids = ids.now; flows = [] }))) }
{
    write_ids(sink, "chunk", Some(rate), ids)
}

/// Writes the line of a corner of a diagram: `point SIZE FEE`, the size in virtual bytes, the fee in satoshis.
pub fn write_point<K: Sink>(sink: &mut K, size: u64, fee: i128) -> Result<(), Failed>
    ensures { Writes (K.written sink.old) (K.written sink.new) (K.faults sink.old) (K.faults sink.new) result
        (line_text (point_line (size, fee))) }
{
    let so_far = sink.write_all(b"point");
    let so_far = more_number(so_far, sink, size);
    let so_far = more_number(so_far, sink, fee);
    more(so_far, sink, b"\n")
}

/// Writes a line of a word and three numbers.
fn write_three<K: Sink, A: Integer, B: Integer, C: Integer>(
    sink: &mut K,
    head: &str,
    first: A,
    second: B,
    third: C,
) -> Result<(), Failed>
    ensures { Writes (K.written sink.old) (K.written sink.new) (K.faults sink.old) (K.faults sink.new) result
        (line_text (spaced (head.now ∷ A.text first ∷ B.text second ∷ C.text third ∷ []))) }
{
    let so_far = sink.write_all(head.as_bytes());
    let so_far = more_number(so_far, sink, first);
    let so_far = more_number(so_far, sink, second);
    let so_far = more_number(so_far, sink, third);
    more(so_far, sink, b"\n")
}

/// Writes the line of a transaction: `tx ID FEE SIZE`, the fee in satoshis, the size in virtual bytes.
pub fn write_tx<K: Sink>(sink: &mut K, id: TxId, fee: i64, size: u64) -> Result<(), Failed>
    ensures { Writes (K.written sink.old) (K.written sink.new) (K.faults sink.old) (K.faults sink.new) result
        (line_text (tx_line id fee size)) }
{
    write_three(sink, "tx", id, fee, size)
}

/// Writes the line of an edge: `edge ID ID`, the parent first.
pub fn write_edge<K: Sink>(sink: &mut K, parent: TxId, child: TxId) -> Result<(), Failed>
    ensures { Writes (K.written sink.old) (K.written sink.new) (K.faults sink.old) (K.faults sink.new) result
        (line_text (edge_line parent child)) }
{
    write_ids(sink, "edge", None, &[parent, child])
}

/// Writes the line of a flow: `flow ID ID AMOUNT`, the child first, the amount in satoshis times virtual bytes.
pub fn write_flow<K: Sink>(sink: &mut K, flow: Flow) -> Result<(), Failed>
    ensures { Writes (K.written sink.old) (K.written sink.new) (K.faults sink.old) (K.faults sink.new) result
        (line_text (flow_line flow)) }
{
    write_three(sink, "flow", flow.child, flow.parent, flow.amount)
}
