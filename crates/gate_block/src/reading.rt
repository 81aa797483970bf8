//! A block read from its bytes.
ghost use Rattle.std.specs.Prelude.{◌≡◌, ◌≤◌, length, Some, IfOk};
ghost use Rattle.gate_tx.specs.Reading.{GivesBy, many_at, vector_at, tx_at};
ghost use Rattle.gate_tx.specs.Text.{longest};
ghost use Rattle.gate_chain.specs.Blocks.{Block as TheBlock};
ghost use Rattle.gate_block.specs.Text.{SpellsBlock};
ghost use Rattle.gate_block.specs.Reading.{block_fault, all_transactions, decoded_block, GivesAll, GivesBlock};

use gate_bytes::{Counted, Cursor};
use gate_chain::{Block, ChainDenial, ChainFault, Header};
use gate_tx::{Identified, MAX_SIZE, TxFault};
use std::alloc::Global;

/// The bytes of a block's header.
const HEADER_SIZE: usize = 80;

const UNREADABLE: ChainFault = ChainFault::Denied(ChainDenial::BlockDecode);

/// Transactions with their ids, and the bytes behind them.
type Front<'a> = (Vec<Counted<Identified>>, &'a [u8]);

/// Reads `count` transactions, one behind the other, and gives them with the bytes behind them. Their ids are hashed here,
/// and by nothing that comes later.
fn read_some(alloc: Global, bytes: &[u8], count: u64) -> Result<Front<'_>, TxFault>
    ensures { length bytes.now ≤ longest → GivesBy (λ x. (x.0.items, x.1.now)) result (many_at tx_at count bytes.now) }
{
    let mut rest = bytes;
    let mut transactions = Vec::new(alloc);
    for _ in 0..count {
        let (transaction, behind) = Identified::read_front(alloc, rest)?;
        transactions.push(Counted::new(alloc, transaction)?)?;
        rest = behind;
    }
    Ok((transactions, rest))
}

/// Reads a count and that many transactions, and gives them with the bytes behind them.
#[tactic(auto, unfolding(gate_tx::specs::Reading::vector_at))]
fn read_vector(alloc: Global, bytes: &[u8]) -> Result<Front<'_>, TxFault>
    ensures { length bytes.now ≤ longest → GivesBy (λ x. (x.0.items, x.1.now)) result (vector_at tx_at bytes.now) }
{
    let mut cursor = Cursor::new(bytes);
    let count = cursor.compact()?;
    let (_, rest) = bytes.split_at(bytes.len() - cursor.left());
    read_some(alloc, rest, count)
}

/// The fault of a block in which a transaction has this fault.
fn decode_fault(fault: TxFault) -> ChainFault
    ensures { result ≡ block_fault fault }
{
    match fault {
        TxFault::Memory => ChainFault::Memory,
        _ => UNREADABLE,
    }
}

/// Reads a count and that many transactions, with nothing behind them.
fn read_transactions(alloc: Global, bytes: &[u8]) -> Result<Vec<Counted<Identified>>, ChainFault>
    ensures { length bytes.now ≤ longest → GivesAll result (all_transactions bytes.now) }
{
    match read_vector(alloc, bytes) {
        Ok((transactions, rest)) => {
            if rest.is_empty() {
                Ok(transactions)
            } else {
                Err(UNREADABLE)
            }
        }
        Err(fault) => Err(decode_fault(fault)),
    }
}

/// The block whose text all of the bytes are: 80 bytes of a header, a count (CompactSize), and that many transactions
/// (BIP 144). C1 says that they are the text of no block: a part goes past the end or is no transaction, bytes are
/// left over, or there are more than 33,554,432 bytes.
pub fn read_block(alloc: Global, bytes: &[u8]) -> Result<Block, ChainFault>
    // The bytes spell what is read.
    ensures found { IfOk result (λ block. SpellsBlock block bytes.now) }

    // What the bytes spell is read, unless memory runs out.
    ensures only { (block : TheBlock) → SpellsBlock block bytes.now → GivesBlock result (Some block) }

    // What is read, as `decoded_block` computes it: C1 comes if the bytes spell no block.
    ensures exact { GivesBlock result (decoded_block bytes.now) }
{
    if bytes.len() > MAX_SIZE {
        return Err(UNREADABLE);
    }
    if bytes.len() < HEADER_SIZE {
        return Err(UNREADABLE);
    }
    let (front, rest) = bytes.split_at(HEADER_SIZE);
    let mut header = [0; 80];
    header.copy_from_slice(front);
    match read_transactions(alloc, rest) {
        Ok(transactions) => Ok(Block::new(alloc, Header::new(header), transactions)?),
        Err(fault) => Err(fault),
    }
}
