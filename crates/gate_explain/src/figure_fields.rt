//! Figures as fields of a JSON object.
use gate_figures::Figures;
use gate_tx::OutPoint;
use std::fmt;

/// The figures of a rule as fields, each behind a comma.
#[derive(Clone, Copy)]
pub(crate) struct FigureFields(pub(crate) Figures);

impl fmt::Display for FigureFields {
    fn fmt<W: fmt::Write>(&self, f: &mut fmt::Formatter<W>) -> fmt::Result {
        match &self.0 {
            Figures::Large { size } => write!(f, ",\"size\":{size},\"most\":1000000"),
            Figures::Small { size, needs } => write!(f, ",\"size\":{size},\"least\":{needs}"),
            Figures::Weighs { weight } => write!(f, ",\"weight\":{weight},\"most\":400000"),
            Figures::Script { output } => write!(f, ",\"output\":{output}"),
            Figures::BareMultisig { output } => {
                write!(f, ",\"output\":{output},\"setting\":\"permitbaremultisig\"")
            }
            Figures::DataScript { output, size, most } => write!(
                f,
                ",\"output\":{output},\"size\":{size},\"most\":{most}"
            ),
            Figures::DataLeft { output, size, left } => write!(
                f,
                ",\"output\":{output},\"size\":{size},\"left\":{left}"
            ),
            Figures::LegacySigops { count, most } => {
                write!(f, ",\"count\":{count},\"most\":{most}")
            }
            Figures::DataOutputs { count, most } => {
                write!(f, ",\"count\":{count},\"most\":{most}")
            }
            Figures::Dust {
                output,
                value,
                needs,
            } => write!(
                f,
                ",\"output\":{output},\"value\":{value},\"least\":{needs}"
            ),
            Figures::DustPays { output, fee } => {
                write!(f, ",\"output\":{output},\"pays\":{fee},\"most\":0")
            }
            Figures::Unswept { outpoint } => {
                let OutPoint { txid, index } = outpoint;
                write!(f, ",\"txid\":\"{txid}\",\"vout\":{index}")
            }
            Figures::Final {
                locktime,
                height,
                median,
            } => write!(
                f,
                ",\"locktime\":{locktime},\"next_height\":{height},\"median_time\":{median}"
            ),
            Figures::Spent { input, by } => { write!(f, ",\"input\":{input},\"entry\":\"{by}\"") }
            Figures::NoCoin { input, outpoint } => {
                let OutPoint { txid, index } = outpoint;
                write!(f, ",\"input\":{input},\"txid\":\"{txid}\",\"vout\":{index}")
            }
            Figures::Young {
                input,
                height,
                next,
            } => {
                let blocks = 100u32.saturating_sub(next.saturating_sub(*height));
                write!(
                    f,
                    ",\"input\":{input},\"coin_height\":{height},\"blocks\":{blocks}"
                )
            }
            Figures::HeightLocked { input, blocks } => {
                write!(f, ",\"input\":{input},\"blocks\":{blocks}")
            }
            Figures::TimeLocked { input, seconds } => {
                write!(f, ",\"input\":{input},\"seconds\":{seconds}")
            }
            Figures::UntimedLocked { input }
            | Figures::NonstandardSpend { input }
            | Figures::NonstandardWitness { input } => write!(f, ",\"input\":{input}"),
            Figures::Balance { coins, outputs } => {
                write!(f, ",\"coins\":{coins},\"outputs\":{outputs}")
            }
            Figures::Costs { cost } => write!(f, ",\"cost\":{cost},\"most\":16000"),
            Figures::Pays { fee, needs } => write!(f, ",\"pays\":{fee},\"needs\":{needs}"),
            Figures::PayTogether {
                count,
                fee,
                vsize,
                needs,
            } => write!(
                f,
                ",\"together\":{count},\"pays\":{fee},\"size\":{vsize},\"needs\":{needs}"
            ),
            Figures::Ancestors { count, most } => {
                write!(f, ",\"ancestors\":{count},\"most\":{most}")
            }
            Figures::AncestorsSized { size, most } => {
                write!(f, ",\"ancestors_size\":{size},\"most\":{most}")
            }
            Figures::Outpaid { rate, most, by } => write!(
                f,
                ",\"rate\":{rate},\"rate_of_entry\":{most},\"entry\":\"{by}\""
            ),
            Figures::Descendants { count } => { write!(f, ",\"descendants\":{count},\"most\":100") }
            Figures::Above { fee, gone, needs } => {
                let least = gone.saturating_add(*needs);
                write!(
                    f,
                    ",\"pays\":{fee},\"needs\":{least},\"replaced_fees\":{gone}"
                )
            }
            Figures::Input { input, wtxid } => {
                write!(f, ",\"input\":{input},\"wtxid\":\"{wtxid}\"")
            }
        }
    }
}
