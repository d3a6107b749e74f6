//! State tables as machines over classes: what they reach, whether every run advances, which pairs of classes are sure,
//! and whether a backward scan ends at such pairs alone.
#![tactic(auto)]

pub mod code;
pub mod state_set;
pub mod state_table;
pub mod sure_pairs;

#[cfg(test)]
mod tests {
    use crate::state_table::StateTable;

    #[test]
    fn finds(rt: HostRuntime) {
        let codes = [132, 0, 132, 128];
        let table = StateTable::new(&codes, 3, 2);
        assert_eq!(rt; table.stuck(), Some(1));
        assert_eq!(rt; table.sure_pairs().has(0, 1), true);
        assert_eq!(rt; table.sure_pairs().count(), 3);
    }

    #[test]
    fn advances(rt: HostRuntime) {
        let codes = [132, 132, 132, 128];
        let table = StateTable::new(&codes, 3, 2);
        assert_eq!(rt; table.stuck(), None);
    }

    #[test]
    fn unsteady(rt: HostRuntime) {
        let forward = [132, 0, 132, 128];
        let sure = StateTable::new(&forward, 3, 2).sure_pairs();
        let at_once = [132, 132, 0, 128];
        assert_eq!(rt; StateTable::new(&at_once, 3, 2).unsteady(&sure), Some(2));
        let later = [132, 132, 6, 128, 132, 0];
        assert_eq!(rt; StateTable::new(&later, 4, 2).unsteady(&sure), Some(5));
        let by_its_own = [132, 132, 128, 128];
        assert_eq!(rt; StateTable::new(&by_its_own, 3, 2).unsteady(&sure), Some(2));
    }

    #[test]
    fn steady(rt: HostRuntime) {
        let forward = [132, 0, 132, 128];
        let sure = StateTable::new(&forward, 3, 2).sure_pairs();
        let backward = [132, 132, 132, 128];
        assert_eq!(rt; StateTable::new(&backward, 3, 2).unsteady(&sure), None);
    }
}
